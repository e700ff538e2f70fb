// The escapes of defaults of bytes (language specification: "String literals").
ghost use Rattle.std.specs.Prelude.{◌≡◌, is_some};
ghost use Rattle.pbx_parse_token.specs.Escapes.{simple_value, number_at, escape_at};
ghost use Rattle.pbx_parse_token.specs.Scan.{has_good_escapes as has_good_escapes_of};

/// Whether hexadecimal digits stand at the front.
#[tactic(auto, using(std::proofs::lemmas::Bool::Decides::nat_tests, crate::proofs::GoodEscapes::hexadecimal_is))]
fn begins_hexadecimal(bytes: &[u8]) -> bool
    ensures { result ≡ is_some (number_at 16 2 bytes.now) }
{
    matches!(bytes, [b'0'..=b'9' | b'a'..=b'f' | b'A'..=b'F', ..])
}

/// Whether octal digits of a value that fits a byte stand at the front.
#[tactic(auto, using(std::proofs::lemmas::Bool::Decides::nat_tests, crate::proofs::GoodEscapes::octal_is))]
fn begins_octal(bytes: &[u8]) -> bool
    ensures { result ≡ is_some (number_at 8 3 bytes.now) }
{
    match bytes {
        [b'0'..=b'3', ..] => true,
        [b'4'..=b'7', b'0'..=b'7', b'0'..=b'7', ..] => false,
        [b'4'..=b'7', ..] => true,
        _ => false,
    }
}

/// Whether a backslash and this byte are an escape.
fn is_simple(b: u8) -> bool
    ensures { result ≡ is_some (simple_value b) }
{
    matches!(
        b,
        b'\\' | b'\'' | b'"' | b'?' | b'n' | b'r' | b't' | b'a' | b'b' | b'f' | b'v'
    )
}

/// Whether a backslash before these bytes begins an escape.
#[tactic(auto, using(crate::proofs::GoodEscapes::mapped_is), unfolding(pbx_parse_token::specs::Escapes::escape_at))]
fn begins_escape(bytes: &[u8]) -> bool
    ensures { result ≡ is_some (escape_at bytes.now) }
{
    match bytes {
        [] => false,
        [b'x', digits @ ..] => begins_hexadecimal(digits),
        [b'0'..=b'7', ..] => begins_octal(bytes),
        [b, ..] => is_simple(*b),
    }
}

/// Whether each backslash begins an escape.
pub(crate) fn has_good_escapes(text: &[u8]) -> bool
    ensures { result ≡ has_good_escapes_of text.now }
{
    let mut rest = text;
    'scan: loop {
        match rest {
            [] => return true,
            [b, tail @ ..] => {
                if *b != b'\\' {
                    rest = tail;
                    continue;
                }
                if !begins_escape(tail) {
                    return false;
                }
                rest = &tail[1..];
            }
        }
    }
}
