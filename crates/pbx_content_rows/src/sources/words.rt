//! The words of rows for what the tree has names for.

ghost use Rattle.std.specs.Prelude.{◌<◌, ◌^◌, length};

use pbx_parse_token::Span;
use pbx_parse_tree::{OptionPlace, Scalar};
use test_rows::Row;

/// The source in the first field; none where it is too long for a source.
pub(crate) fn source(row: &Row) -> &str
    ensures { length result.now < 2 ^ 31 }
{
    let source = row.text(0);
    if source.len() < 2147483648 {
        source
    } else {
        ""
    }
}

/// A place in the first line of a made tree.
pub(crate) fn place(from: u32) -> Span {
    Span {
        line: 0,
        from,
        to: from,
    }
}

/// A scalar type by its word; not all have one.
pub(crate) fn scalar(word: &str) -> Scalar {
    match word {
        "double" => Scalar::Double,
        "float" => Scalar::Float,
        "bool" => Scalar::Bool,
        "string" => Scalar::String,
        "bytes" => Scalar::Bytes,
        "fixed64" => Scalar::Fixed64,
        _ => Scalar::Sint64,
    }
}

/// What options are set for, by its word.
pub(crate) fn option_place(word: &str) -> OptionPlace {
    match word {
        "file" => OptionPlace::File,
        "message" => OptionPlace::Message,
        "field" => OptionPlace::Field,
        "enum" => OptionPlace::Enum,
        "enum value" => OptionPlace::EnumValue,
        "service" => OptionPlace::Service,
        _ => OptionPlace::Method,
    }
}
