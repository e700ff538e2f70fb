ghost use Rattle.std.specs.Prelude.{◌≡◌};
ghost use Rattle.protox_words.specs.Words.{count_of as count_in, retries_in as retries_among};

/// The greatest number of a schema to generate.
const GREATEST: u16 = 2000;

/// The number from 1 to 2000 that the text is, as one to four digits of which the first is not zero.
pub(crate) fn count_of(text: &str) -> Option<u16>
    ensures { result ≡ count_in text.now }
{
    let digits = text.as_bytes();
    if digits.is_empty() || digits.len() > 4 || digits[0] == b'0' {
        return None;
    }
    let mut number = 0;
    for digit in digits {
        if !digit.is_ascii_digit() {
            return None;
        }
        number = number * 10 + u16::from(*digit - b'0');
        if number > GREATEST {
            return None;
        }
    }
    Some(number)
}

/// The greatest number of retries.
const MOST_RETRIES: u16 = 1000;

/// The number from 0 to 1000 that the text is, as `0` itself or as one to four digits of which the first is not zero.
pub(crate) fn retries_in(text: &str) -> Option<u16>
    ensures { result ≡ retries_among text.now }
{
    if text == "0" {
        return Some(0);
    }
    match count_of(text) {
        Some(retries) if retries <= MOST_RETRIES => Some(retries),
        _ => None,
    }
}
