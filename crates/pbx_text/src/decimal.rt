ghost use Rattle.std.specs.Prelude.{◌≡◌, IfOk};
ghost use Rattle.std.specs.Fmt.{decimal as decimal_of, signed_decimal as signed_decimal_of};
ghost use Rattle.std.specs.List.{list_all};
ghost use Rattle.std.specs.Str.Parse.{without_leading_plus, without_leading_sign};
ghost use Rattle.pbx_text.specs.Decimal.{is_digit, signed_read, unsigned_read};

use crate::fault::TextFault;
use itoa::Buffer;
use pbx_wire::{NoMemory, Text};
use std::alloc::Global;

/// Whether all bytes are digits. std's `parse` stops at a number that is too large, so it does not tell.
fn are_digits(bytes: &[u8]) -> bool
    ensures { result ≡ list_all is_digit bytes.now }
{
    let mut rest = bytes;
    'digits: loop {
        let [digit, tail @ ..] = rest else {
            return true;
        };
        if !digit.is_ascii_digit() {
            return false;
        }
        rest = tail;
    }
}

/// The text without a `+` in front.
fn after_plus(text: &[u8]) -> &[u8]
    ensures { result.now ≡ without_leading_plus text.now }
{
    match text {
        [b'+', rest @ ..] => rest,
        _ => text,
    }
}

/// The text without a `+` or a `-` in front.
fn after_sign(text: &[u8]) -> &[u8]
    ensures { result.now ≡ without_leading_sign text.now }
{
    match text {
        [b'-', rest @ ..] => rest,
        _ => after_plus(text),
    }
}

/// The number of a decimal text, with an optional `+` or `-`, from `min` to `max`. Takes no memory.
pub fn read_signed(text: &str, min: i64, max: i64) -> Result<i64, TextFault>
    ensures { result ≡ signed_read min max text.now }
{
    let digits = after_sign(text.as_bytes());
    if digits.is_empty() || !are_digits(digits) {
        return Err(TextFault::Form);
    }
    match text.parse::<i64>() {
        Ok(number) if min <= number && number <= max => Ok(number),
        _ => Err(TextFault::Range),
    }
}

/// The number of a decimal text, with an optional `+`, up to `max`. Takes no memory.
pub fn read_unsigned(text: &str, max: u64) -> Result<u64, TextFault>
    ensures { result ≡ unsigned_read max text.now }
{
    let digits = after_plus(text.as_bytes());
    if digits.is_empty() || !are_digits(digits) {
        return Err(TextFault::Form);
    }
    match text.parse::<u64>() {
        Ok(number) if number <= max => Ok(number),
        _ => Err(TextFault::Range),
    }
}

/// The number in decimal, behind a `-` where it is negative.
pub fn write_signed(alloc: Global, value: i64) -> Result<Text, NoMemory>
    ensures { IfOk result (λ text. text ≡ signed_decimal_of value) }
{
    Text::from_str(alloc, Buffer::new().format(value))
}

/// The number in decimal.
pub fn write_unsigned(alloc: Global, value: u64) -> Result<Text, NoMemory>
    ensures { IfOk result (λ text. text ≡ decimal_of value) }
{
    Text::from_str(alloc, Buffer::new().format(value))
}
