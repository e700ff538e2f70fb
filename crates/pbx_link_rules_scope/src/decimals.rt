// Decimal texts (language specification: "Integer literals").
ghost use Rattle.std.specs.Prelude.{◌≡◌, ◌+◌, ◌<◌, ◌^◌};
ghost use Rattle.pbx_link_rules_scope.specs.Digits.{with_digit as with_digit_of, small, is_at_most as is_at_most_of};
ghost use Rattle.pbx_link_rules_scope.specs.Defaults.{digits_value as digits_value_of, is_signed_text as is_signed_text_of};
ghost use Rattle.pbx_link_rules_scope.specs.Defaults.{is_unsigned_text as is_unsigned_text_of};

/// The number with a digit behind it, if it is a digit and the number is below 2^64.
fn with_digit(number: u64, digit: u8) -> Option<u64>
    ensures { result ≡ with_digit_of number digit }
{
    match digit {
        b'0'..=b'9' => number.checked_mul(10)?.checked_add(u64::from(digit - b'0')),
        _ => None,
    }
}

/// The number that digits spell, if these are digits, one or more, and it is below 2^64.
fn digits_value(digits: &[u8]) -> Option<u64>
    ensures { result ≡ small (digits_value_of digits.now) }
{
    if digits.is_empty() {
        return None;
    }
    let mut number = 0;
    for digit in digits {
        match with_digit(number, *digit) {
            Some(longer) => number = longer,
            None => return None,
        }
    }
    Some(number)
}

/// Whether digits spell a number up to the greatest.
fn is_at_most(greatest: u64, digits: &[u8]) -> bool
    ensures { result ≡ is_at_most_of greatest (digits_value_of digits.now) }
{
    match digits_value(digits) {
        Some(number) => number <= greatest,
        None => false,
    }
}

/// Whether digits spell a number up to the greatest and one more, so that its negative is one of a signed type.
fn fits_negative(greatest: u64, digits: &[u8]) -> bool
    requires { greatest < 2 ^ 63 }
    ensures { result ≡ is_at_most_of (greatest + 1) (digits_value_of digits.now) }
{
    match digits_value(digits) {
        Some(number) => number.saturating_sub(1) <= greatest,
        None => false,
    }
}

/// Whether it is a decimal text of a signed number up to the greatest.
pub(crate) fn is_signed_text(greatest: u64, text: &[u8]) -> bool
    requires { greatest < 2 ^ 63 }
    ensures { result ≡ is_signed_text_of greatest text.now }
{
    match text {
        [b'+', digits @ ..] => is_at_most(greatest, digits),
        [b'-', digits @ ..] => fits_negative(greatest, digits),
        _ => is_at_most(greatest, text),
    }
}

/// Whether it is a decimal text without `-` of a number up to the greatest.
pub(crate) fn is_unsigned_text(greatest: u64, text: &[u8]) -> bool
    ensures { result ≡ is_unsigned_text_of greatest text.now }
{
    match text {
        [b'+', digits @ ..] => is_at_most(greatest, digits),
        _ => is_at_most(greatest, text),
    }
}
