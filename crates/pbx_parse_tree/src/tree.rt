//! The syntax tree, with the span of each token. Its texts stay in the source.

ghost use Rattle.std.specs.Prelude.{◌≡◌, ◌≤◌, true};
ghost use Rattle.std.specs.Str.{is_utf8};
ghost use Rattle.pbx_parse_token.specs.Escapes.{unescaped};
ghost use Rattle.pbx_parse_tree.specs.Conditions.{is_enum_number};

use pbx_parse_token::{Span, stands_for_text};

/// The version of the language that a file is written in.
#[derive(Clone, Copy, Debug, PartialEq, Eq)]
pub enum Version {
    Proto2,
    Proto3,
}

/// A scalar type.
#[derive(Clone, Copy, Debug, PartialEq, Eq)]
pub enum Scalar {
    Double,
    Float,
    Int32,
    Int64,
    Uint32,
    Uint64,
    Sint32,
    Sint64,
    Fixed32,
    Fixed64,
    Sfixed32,
    Sfixed64,
    Bool,
    String,
    Bytes,
}

/// The label of a field.
#[derive(Clone, Copy, Debug, PartialEq, Eq)]
pub enum Label {
    Optional,
    Required,
    Repeated,
}

/// What stands between `import` and the file's name.
#[derive(Clone, Copy, Debug, PartialEq, Eq)]
pub enum Modifier {
    Public,
    Weak,
}

/// A name.
#[derive(Clone, Copy)]
pub struct Name<'a> {
    pub text: &'a str,
    pub span: Span,
}

/// A string literal.
#[derive(Clone, Copy)]
pub struct Literal<'a> {
    /// What stands between the quotes, escapes as they are written.
    pub text: &'a str,
    pub span: Span,
    /// Whether the bytes that it stands for are UTF-8.
    pub is_text: bool,
    ghost told: { is_text ≡ is_utf8 (unescaped text.now) },
}

impl<'a> Literal<'a> {
    /// What is written between the quotes, and the place of the literal.
    pub fn new(text: &'a str, span: Span) -> Literal<'a>
        ensures text { result.text.now ≡ text.now }
        ensures span { result.span ≡ span }
    {
        let is_text = is_text(text);
        Literal {
            text,
            span,
            is_text,
        }
    }
}

fn is_text(text: &str) -> bool
    ensures { result ≡ is_utf8 (unescaped text.now) }
{
    stands_for_text(text)
}

/// The number of a field.
#[derive(Clone, Copy)]
pub struct FieldNumber {
    pub value: u64,
    pub span: Span,
    ghost in_range: { value ≤ 2147483647 },
}

/// A number in a range of a message.
#[derive(Clone, Copy)]
pub struct RangeNumber {
    pub value: u64,
    pub span: Span,
    ghost in_range: { value ≤ 536870911 },
}

/// The number of an enum's value, or one in a range of an enum: an `i32`.
#[derive(Clone, Copy)]
pub struct EnumNumber {
    pub minus: Option<Span>,
    /// The number without its sign.
    pub value: u64,
    pub span: Span,
    ghost in_range: { is_enum_number (record { minus = minus; value = value; span = span }) ≡ true },
}

/// An integer with its sign.
#[derive(Clone, Copy)]
pub struct Number {
    pub minus: Option<Span>,
    /// The number without its sign.
    pub value: u64,
    pub span: Span,
}

/// One or more, with the marks between them.
#[derive(Drop)]
pub struct Separated<T> {
    pub first: T,
    /// Each with the mark before it.
    pub more: Vec<(Span, T)>,
}

/// The name of a type, with its dots.
#[derive(Drop)]
pub struct TypeName<'a> {
    /// The dot before the first name.
    pub dot: Option<Span>,
    pub full: Separated<Name<'a>>,
}

/// The type of a field.
#[derive(Drop)]
pub enum Kind<'a> {
    Scalar(Scalar, Span),
    Named(TypeName<'a>),
}

/// The value of an option.
#[derive(Clone, Copy)]
pub enum Constant<'a> {
    Number(Number),
    Identifier(Name<'a>),
    String(Literal<'a>),
}

/// `NAME = CONSTANT`
#[derive(Clone, Copy)]
pub struct Setting<'a> {
    pub name: Name<'a>,
    pub equals: Span,
    pub value: Constant<'a>,
}

/// `[SETTING, ..]`
#[derive(Drop)]
pub struct Settings<'a> {
    pub open: Span,
    // A box, since most fields have none, and each has the room of some.
    pub settings: Box<Separated<Setting<'a>>>,
    pub close: Span,
}

/// `option SETTING;`
#[derive(Clone, Copy)]
pub struct Statement<'a> {
    pub keyword: Span,
    pub setting: Setting<'a>,
    pub end: Span,
}

/// What a range ends with.
#[derive(Clone, Copy)]
pub enum RangeEnd<N> {
    Number(N),
    Max(Span),
}

/// `NUMBER`, or `NUMBER to END`
#[derive(Clone, Copy)]
pub struct Range<N> {
    pub from: N,
    /// The keyword `to`, and what the range ends with.
    pub to: Option<(Span, RangeEnd<N>)>,
}

/// `extensions RANGE, ..;`
#[derive(Drop)]
pub struct Extensions {
    pub keyword: Span,
    pub ranges: Separated<Range<RangeNumber>>,
    pub end: Span,
}

/// `reserved RANGE, ..;` or `reserved STRING, ..;`
#[derive(Drop)]
pub enum Reserved<'a, N> {
    Ranges(Span, Separated<Range<N>>, Span),
    Names(Span, Separated<Literal<'a>>, Span),
}

/// `NAME = NUMBER [SETTING, ..];`
#[derive(Drop)]
pub struct Tail<'a> {
    pub name: Name<'a>,
    pub equals: Span,
    pub number: FieldNumber,
    pub settings: Option<Settings<'a>>,
    pub end: Span,
}

/// A field, or an extension.
#[derive(Drop)]
pub struct Field<'a> {
    pub label: Option<(Label, Span)>,
    pub kind: Kind<'a>,
    pub tail: Tail<'a>,
}

/// `map<KEY, VALUE> NAME = NUMBER [SETTING, ..];`
#[derive(Drop)]
pub struct MapField<'a> {
    pub keyword: Span,
    pub open: Span,
    pub key: Scalar,
    pub key_span: Span,
    pub comma: Span,
    pub value: Kind<'a>,
    pub close: Span,
    pub tail: Tail<'a>,
}

/// What stands in a oneof.
#[derive(Drop)]
pub enum Member<'a> {
    Empty(Span),
    Field(Kind<'a>, Tail<'a>),
}

/// `oneof NAME { .. }`
#[derive(Drop)]
pub struct Oneof<'a> {
    pub keyword: Span,
    pub name: Name<'a>,
    pub open: Span,
    pub members: Vec<Member<'a>>,
    pub close: Span,
}

/// What stands in an `extend` block.
#[derive(Drop)]
pub enum Extension<'a> {
    Empty(Span),
    Field(Field<'a>),
}

/// `extend TYPE { .. }`
#[derive(Drop)]
pub struct Extend<'a> {
    pub keyword: Span,
    pub extendee: TypeName<'a>,
    pub open: Span,
    pub extensions: Vec<Extension<'a>>,
    pub close: Span,
}

/// `NAME = NUMBER [SETTING, ..];`
#[derive(Drop)]
pub struct Value<'a> {
    pub name: Name<'a>,
    pub equals: Span,
    pub number: EnumNumber,
    pub settings: Option<Settings<'a>>,
    pub end: Span,
}

/// What stands in an enum.
#[derive(Drop)]
pub enum EnumItem<'a> {
    Empty(Span),
    Value(Value<'a>),
    Reserved(Reserved<'a, EnumNumber>),
    Option(Statement<'a>),
}

/// `enum NAME { .. }`
#[derive(Drop)]
pub struct Enum<'a> {
    pub keyword: Span,
    pub name: Name<'a>,
    pub open: Span,
    pub items: Vec<EnumItem<'a>>,
    pub close: Span,
}

/// `(stream TYPE)`
#[derive(Drop)]
pub struct MethodType<'a> {
    pub open: Span,
    pub stream: Option<Span>,
    pub name: TypeName<'a>,
    pub close: Span,
}

/// What stands in the block of a method.
#[derive(Clone, Copy)]
pub enum MethodItem<'a> {
    Empty(Span),
    Option(Statement<'a>),
}

/// What a method ends with.
#[derive(Drop)]
pub enum MethodEnd<'a> {
    Semicolon(Span),
    Block(Span, Vec<MethodItem<'a>>, Span),
}

/// `rpc NAME TYPE returns TYPE END`
#[derive(Drop)]
pub struct Method<'a> {
    pub keyword: Span,
    pub name: Name<'a>,
    pub input: MethodType<'a>,
    pub returns: Span,
    pub output: MethodType<'a>,
    pub end: MethodEnd<'a>,
}

/// What stands in a service.
#[derive(Drop)]
pub enum ServiceItem<'a> {
    Empty(Span),
    Method(Method<'a>),
    Option(Statement<'a>),
}

/// `service NAME { .. }`
#[derive(Drop)]
pub struct Service<'a> {
    pub keyword: Span,
    pub name: Name<'a>,
    pub open: Span,
    pub items: Vec<ServiceItem<'a>>,
    pub close: Span,
}

/// `message NAME {`
#[derive(Clone, Copy)]
pub struct Head<'a> {
    pub keyword: Span,
    pub name: Name<'a>,
    pub open: Span,
}

/// What stands in a message. A message in it has its head, its items and its `}`.
#[derive(Drop)]
pub enum Item<'a> {
    Empty(Span),
    Field(Field<'a>),
    Map(MapField<'a>),
    Oneof(Oneof<'a>),
    Message(Head<'a>, Vec<Item<'a>>, Span),
    Enum(Enum<'a>),
    Extend(Extend<'a>),
    Extensions(Extensions),
    Reserved(Reserved<'a, RangeNumber>),
    Option(Statement<'a>),
}

/// A message at the top of a file, up to its `}`.
#[derive(Drop)]
pub struct Message<'a> {
    pub head: Head<'a>,
    pub items: Vec<Item<'a>>,
    pub close: Span,
}

/// `syntax = STRING;`
#[derive(Clone, Copy)]
pub struct Syntax<'a> {
    pub keyword: Span,
    pub equals: Span,
    pub value: Literal<'a>,
    pub end: Span,
}

/// `package NAME.NAME;`
#[derive(Drop)]
pub struct Package<'a> {
    pub keyword: Span,
    pub full: Separated<Name<'a>>,
    pub end: Span,
}

/// `import MODIFIER STRING;`
#[derive(Clone, Copy)]
pub struct Import<'a> {
    pub keyword: Span,
    pub modifier: Option<(Modifier, Span)>,
    pub path: Literal<'a>,
    pub end: Span,
}

/// What stands at the top of a file.
#[derive(Drop)]
pub enum Top<'a> {
    Empty(Span),
    Package(Package<'a>),
    Import(Import<'a>),
    Message(Message<'a>),
    Enum(Enum<'a>),
    Extend(Extend<'a>),
    Service(Service<'a>),
    Option(Statement<'a>),
}

/// A file.
#[derive(Drop)]
pub struct File<'a> {
    pub syntax: Option<Syntax<'a>>,
    pub tops: Vec<Top<'a>>,
}
