//! Tokens and their places.

ghost use Rattle.std.specs.Prelude.{◌≡◌, ◌+◌, ◌<◌, ◌≤◌, ◌^◌, length};
ghost use Rattle.pbx_parse_token.specs.Places.{place_after};

/// A line and a column in bytes, both from 0. Only a line feed ends a line.
#[derive(Clone, Copy, Debug, PartialEq, Eq)]
pub struct Place {
    pub line: u32,
    pub column: u32,
}

/// Where a token stands: its line, the column of its first byte and the column after its last, from 0.
/// No token goes over the end of a line.
#[derive(Clone, Copy, Debug, PartialEq, Eq)]
pub struct Span {
    pub line: u32,
    pub from: u32,
    pub to: u32,
}

/// What a token says.
#[derive(Clone, Copy, Debug)]
pub enum Word<'a> {
    /// A name or a keyword.
    Ident(&'a str),
    /// The value of a decimal, octal or hexadecimal integer.
    Int(u64),
    /// What stands between the quotes, as written.
    Str(&'a str),
    /// One of the marks ``; { } [ ] ( ) < > = , . -``.
    Mark(u8),
}

/// A token, whose text stays in the source.
#[derive(Clone, Copy, Debug)]
pub struct Token<'a> {
    pub word: Word<'a>,
    pub span: Span,
    /// How many bytes of the source are left where it begins.
    pub left: u32,
}

/// The place after a text that begins at a place.
pub fn after(place: Place, text: &[u8]) -> Place
    requires line { place.line + length text.now < 2 ^ 32 }
    requires column { place.column + length text.now < 2 ^ 32 }
    ensures is { result ≡ place_after text.now place }
    ensures line { result.line ≤ place.line + length text.now }
    ensures column { result.column ≤ place.column + length text.now }
{
    let mut line = place.line;
    let mut column = place.column;
    for b in text {
        if *b == b'\n' {
            line += 1;
            column = 0;
        } else {
            column += 1;
        }
    }
    Place { line, column }
}
