ghost use Rattle.std.specs.Prelude.{◌≡◌, true, ◌≤◌, ◌<◌, ◌+◌, ◌++◌, ◌∷◌, [], if◌then◌else◌, nat_le, Some, None, IfOk, IfSome, IfErr, IsTrue, OnOk};
ghost use Rattle.std.specs.Prelude.{option_map, get_or, replicate, string_bytes};
ghost use Rattle.std.specs.List.{list_all};
ghost use Rattle.pbx_text.specs.Decimal.{digits_value, is_digit, padded};
ghost use Rattle.pbx_text.specs.Clock.{after_digits, fits_mark as fits_mark_of, fits_picture, fraction_of, fraction_text as fraction_text_of};
ghost use Rattle.pbx_text.specs.Clock.{front_digits, nanos_of_digits};

use pbx_wire::NoMemory;
use std::alloc::Global;

/// Whether the character is what a character of a picture stands for.
fn fits_mark(mark: u8, c: u8) -> bool
    ensures { result ≡ fits_mark_of mark c }
{
    if mark == b'0' {
        c.is_ascii_digit()
    } else {
        mark == c
    }
}

/// Whether the text has the form of the picture, in which `0` stands for any digit and all else for itself.
#[tactic(auto, using(crate::proofs::Pictures::mark_fits, crate::proofs::Pictures::mark_fails, crate::proofs::Pictures::marks_end, crate::proofs::Pictures::text_ends,))]
pub(crate) fn fits(picture: &[u8], text: &[u8]) -> bool
    ensures { result ≡ fits_picture picture.now text.now }
{
    let mut marks = picture;
    let mut rest = text;
    'marks: loop {
        let [mark, later_marks @ ..] = marks else {
            return rest.is_empty();
        };
        let [c, behind @ ..] = rest else {
            return false;
        };
        if !fits_mark(*mark, *c) {
            return false;
        }
        marks = later_marks;
        rest = behind;
    }
}

/// The digits at the front, and the text behind them.
pub(crate) fn split_digits(text: &[u8]) -> (&[u8], &[u8])
    ensures front { result.0.now ≡ front_digits text.now }
    ensures behind { result.1.now ≡ after_digits text.now }
{
    let mut count = 0;
    while count < text.len() && text[count].is_ascii_digit() {
        count += 1;
    }
    text.split_at(count)
}

/// The number that digits spell, if it is at most `max`.
pub(crate) fn number_up_to(digits: &[u8], max: u64) -> Option<u64>
    requires digits { list_all is_digit digits.now ≡ true }
    requires room { max < 1000000000000000000 }
    ensures { result ≡ (if nat_le (digits_value digits.now) max then Some (digits_value digits.now) else None) }
{
    let mut number = 0;
    let mut rest = digits;
    'digits: loop {
        let [digit, tail @ ..] = rest else {
            return Some(number);
        };
        number = number * 10 + u64::from(*digit - b'0');
        if number > max {
            return None;
        }
        rest = tail;
    }
}

/// The value of the digit at a place, and 0 behind the last.
fn digit_or_zero(digits: &[u8], place: usize) -> u32
    requires { list_all is_digit digits.now ≡ true }
    ensures value { result + 48 ≡ get_or digits.now place 48 }
    ensures small { result ≤ 9 }
{
    if place < digits.len() {
        u32::from(digits[place] - b'0')
    } else {
        0
    }
}

/// The nanoseconds that the digits of a fraction say.
fn nanos_of(digits: &[u8]) -> u32
    requires { list_all is_digit digits.now ≡ true }
    ensures value { result ≡ nanos_of_digits digits.now }
    ensures small { result < 1000000000 }
{
    let mut nanos = 0;
    for place in 0..9 {
        nanos = nanos * 10 + digit_or_zero(digits, place);
    }
    nanos
}

/// The nanoseconds of an optional fraction at the front, and the text behind it.
#[tactic(auto, using(crate::proofs::Clocks::front_digits_are))]
pub(crate) fn split_fraction(text: &[u8]) -> Option<(u32, &[u8])>
    ensures value { option_map (λ f. (f.0, f.1.now)) result ≡ fraction_of text.now }
    ensures small { IfSome result (λ f. f.0 < 1000000000) }
{
    let [b'.', behind @ ..] = text else {
        return Some((0, text));
    };
    let (digits, rest) = split_digits(behind);
    if digits.is_empty() {
        return None;
    }
    Some((nanos_of(digits), rest))
}

/// Adds the last digits of a number, so many.
#[tactic(auto, using(crate::proofs::Clocks::padded_none, crate::proofs::Clocks::padded_more))]
pub(crate) fn push_padded(text: &mut String, width: u32, number: u32) -> Result<(), NoMemory>
    ensures { OnOk result (string_bytes text.new ≡ string_bytes text.old ++ padded width number) }
{
    if width == 0 {
        return Ok(());
    }
    push_padded(text, width - 1, number / 10)?;
    text.push(char::from(b'0' + (number % 10) as u8))?;
    Ok(())
}

/// The fraction of a second: nothing, or `.` and 3, 6 or 9 digits, the fewest that suffice.
pub(crate) fn fraction_text(alloc: Global, nanos: u32) -> Result<String, NoMemory>
    ensures { IfOk result (λ text. string_bytes text ≡ fraction_text_of nanos) }
{
    let mut text = String::new(alloc);
    if nanos == 0 {
        return Ok(text);
    }
    let (width, number) = if nanos % 1_000_000 == 0 {
        (3, nanos / 1_000_000)
    } else if nanos % 1000 == 0 {
        (6, nanos / 1000)
    } else {
        (9, nanos)
    };
    text.push('.')?;
    push_padded(&mut text, width, number)?;
    Ok(text)
}
