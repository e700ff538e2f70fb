// Rows of the table of built-in files.

/// What one value of a field is: a scalar, or a message or an enum by its full name with a leading dot.
#[derive(Clone, Copy)]
pub(crate) enum Kind {
    Double,
    Float,
    Int64,
    Uint64,
    Int32,
    Bool,
    String,
    Message(&'static str),
    Bytes,
    Uint32,
    Enum(&'static str),
}

/// How many values a field has.
#[derive(Clone, Copy)]
pub(crate) enum Label {
    Optional,
    Required,
    Repeated,
}

/// An option: its number, and a number or flag, or a text.
#[derive(Clone, Copy)]
pub(crate) enum OptionRow {
    Number(u32, u64),
    Text(u32, &'static str),
}

/// What a field has beside its type; none has two of these.
#[derive(Clone, Copy)]
pub(crate) enum Beside {
    Nothing,
    /// A default, in the words of a source.
    Default(&'static str),
    Options(&'static [OptionRow]),
    /// The index of the oneof that it is a member of.
    Member(i32),
}

/// A field: its number, its name, its key in canonical JSON, how many values it has, what one value is, and
/// what else is told of it.
#[derive(Clone, Copy)]
pub(crate) struct FieldRow(
    pub i32,
    pub &'static str,
    pub &'static str,
    pub Label,
    pub Kind,
    pub Beside,
);

/// A value of an enum: its name and its number.
#[derive(Clone, Copy)]
pub(crate) struct ValueRow(pub &'static str, pub i32);

/// An enum: its name and its values.
#[derive(Clone, Copy)]
pub(crate) struct EnumRow(pub &'static str, pub &'static [ValueRow]);

/// A range of numbers: the first, and the one behind the last.
#[derive(Clone, Copy)]
pub(crate) struct RangeRow(pub i32, pub i32);

/// What few messages have: the names of oneofs, ranges of numbers that are left to extensions, those that are
/// reserved, and options.
#[derive(Clone, Copy)]
pub(crate) struct Rest(
    pub &'static [&'static str],
    pub &'static [RangeRow],
    pub &'static [RangeRow],
    pub Option<&'static [OptionRow]>,
);

/// A message: its name, its fields, its enums, and the rest; the messages in it stand beside it.
#[derive(Clone, Copy)]
pub(crate) struct MessageRow(
    pub &'static str,
    pub &'static [FieldRow],
    pub &'static [EnumRow],
    pub Rest,
);

/// A message at the top of a file, and the messages in it, which hold no others.
#[derive(Clone, Copy)]
pub(crate) struct TopRow(pub MessageRow, pub &'static [MessageRow]);

/// A file.
#[derive(Clone, Copy)]
pub(crate) struct FileRow {
    /// The name under which it is imported.
    pub name: &'static str,
    pub package: &'static str,
    /// The names of the files that it imports.
    pub dependency: &'static [&'static str],
    pub messages: &'static [TopRow],
    pub enums: &'static [EnumRow],
    /// Its options, by ascending number.
    pub options: &'static [OptionRow],
    /// `proto3`; a file without one is of proto2.
    pub syntax: Option<&'static str>,
}
