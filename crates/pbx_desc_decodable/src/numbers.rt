// Payloads that hold numbers, and texts.
ghost use Rattle.std.specs.Prelude.{◌≡◌, length};
ghost use Rattle.std.specs.Option.{is_some};
ghost use Rattle.std.specs.Str.{is_utf8};
ghost use Rattle.pbx_content.specs.Records.{varints_in};
ghost use Rattle.pbx_content.specs.Shape.{form_of};
ghost use Rattle.pbx_content.specs.Meaning.{numbers_in};

use pbx_content::Kind;
use pbx_wire::read_varint;

pub(crate) fn is_text(bytes: &[u8]) -> bool
    ensures { result ≡ is_utf8 bytes.now }
{
    match std::str::from_utf8(bytes) {
        Ok(_) => true,
        Err(_) => false,
    }
}

/// Whether the bytes are varints, one after another.
fn are_varints(bytes: &[u8]) -> bool
    ensures { result ≡ is_some (varints_in (length bytes.now) bytes.now) }
{
    let mut rest = bytes;
    while rest.len() > 0 {
        match read_varint(0, rest) {
            Ok((_, after)) => rest = after,
            Err(_) => return false,
        }
    }
    true
}

/// Whether a payload holds numbers of the kind, one after another.
pub(crate) fn are_numbers(kind: Kind, bytes: &[u8]) -> bool
    ensures { result ≡ is_some (numbers_in (form_of kind) bytes.now) }
{
    match kind {
        Kind::String | Kind::Bytes | Kind::Message(_) => false,
        Kind::Float | Kind::Fixed32 | Kind::Sfixed32 => bytes.len() % 4 == 0,
        Kind::Double | Kind::Fixed64 | Kind::Sfixed64 => bytes.len() % 8 == 0,
        _ => are_varints(bytes),
    }
}
