//! The values of digits and of integers.

ghost use Rattle.std.specs.Prelude.{◌≡◌, ◌≤◌, ◌<◌};
ghost use Rattle.pbx_parse_token.specs.Bytes.{digit_of};
ghost use Rattle.pbx_parse_token.specs.Scan.{digits_from, int_value};

/// The value of digits after a front of that value.
#[tactic(auto, unfolding(crate::specs::Scan::digits_from))]
pub fn digits_value(base: u64, front: u64, digits: &[u8]) -> Option<u64>
    requires { base ≤ 16 }
    ensures { result ≡ digits_from base front digits.now }
{
    let mut rest = digits;
    let mut value = front;
    'scan: loop {
        match rest {
            [] => return Some(value),
            [a, tail @ ..] => {
                let digit = digit_value(*a);
                if digit >= base {
                    return None;
                }
                let Some(product) = value.checked_mul(base) else {
                    return None;
                };
                let Some(sum) = product.checked_add(digit) else {
                    return None;
                };
                value = sum;
                rest = tail;
            }
        }
    }
}

pub fn digit_value(b: u8) -> u64
    ensures is { result ≡ digit_of b }
    ensures small { result < 100 }
{
    match b {
        b'0'..=b'9' => (b - b'0') as u64,
        b'a'..=b'f' => (b - b'a') as u64 + 10,
        b'A'..=b'F' => (b - b'A') as u64 + 10,
        _ => 99,
    }
}

pub fn int_of(text: &[u8]) -> Option<u64>
    ensures { result ≡ int_value text.now }
{
    match text {
        [] => None,
        [b'0'] => Some(0),
        [b'0', b'x' | b'X'] => None,
        [b'0', b'x' | b'X', rest @ ..] => digits_value(16, 0, rest),
        [b'0', rest @ ..] => digits_value(8, 0, rest),
        [_, ..] => digits_value(10, 0, text),
    }
}
