/// How JSON tells the messages of a type (ProtoJSON Format: the table of types).
#[derive(Clone, Copy, Debug, PartialEq, Eq)]
pub enum Form {
    /// An object of fields, as of every type whose name is not well known.
    Fields,
    /// `google.protobuf.Any`: an object with the type's URL and the payload.
    Any,
    /// `google.protobuf.Timestamp`: an RFC 3339 text.
    Timestamp,
    /// `google.protobuf.Duration`: a text of seconds.
    Duration,
    /// `google.protobuf.Struct`: an object of any members.
    Struct,
    /// `google.protobuf.ListValue`: an array of any elements.
    ListValue,
    /// `google.protobuf.Value`: any tree.
    Value,
    /// `google.protobuf.FieldMask`: a text of paths.
    FieldMask,
    /// `google.protobuf.Empty`: an object without members.
    Empty,
    /// A wrapper of a scalar that is no float: the scalar's own tree.
    Wrapper,
    /// A wrapper of a float, which has no JSON here.
    FloatWrapper,
    /// The name is well known, and the type has not the shape of that name.
    Misshapen,
}
