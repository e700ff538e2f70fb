ghost use Rattle.std.specs.Prelude.{◌≡◌, ◌⊎◌, ◌≤◌, ◌<◌, if◌then◌else◌, nat_le, ◌&&◌, unsigned_abs, Ok, Err, IfOk, IfErr, IfSome, option_and_then, ◌++◌, codes, decimal};
ghost use Rattle.pbx_text.specs.Decimal.{and_then, or_form};
ghost use Rattle.pbx_text.specs.Clock.{fraction_of, fraction_text as fraction_text_of};
ghost use Rattle.pbx_text.specs.Duration.{duration_read, duration_written, is_duration_second, length_of, nanos_before_s as nanos_before_s_of, negated as negated_of, sign_text, signs_agree};
ghost use Rattle.pbx_text.specs.declared.fault.TextFault.TheVariants.{NoMemory as OutOfMemory, Range as OutOfRange};

use crate::clock::{fraction_text, number_up_to, split_digits, split_fraction};
use crate::fault::TextFault;
use itoa::Buffer;
use pbx_wire::{NoMemory, Text};
use std::alloc::Global;

/// The most whole seconds of a duration, either way.
const MAX_SECONDS: u64 = 315_576_000_000;

/// The nanoseconds of an optional fraction, behind which `s` ends the text.
fn nanos_before_s(text: &[u8]) -> Option<u32>
    ensures value { result ≡ option_and_then nanos_before_s_of (fraction_of text.now) }
    ensures small { IfSome result (λ nanos. nanos < 1000000000) }
{
    let (nanos, behind) = split_fraction(text)?;
    match behind {
        [b's'] => Some(nanos),
        _ => None,
    }
}

/// The seconds and nanoseconds of a duration text that has no sign.
#[tactic(auto, using(crate::proofs::Clocks::front_digits_are))]
fn read_length(text: &[u8]) -> Result<(u64, u32), TextFault>
    ensures value { result ≡ and_then (or_form (length_of text.now)) (λ t. if nat_le t.0 315576000000 then Ok t else Err OutOfRange) }
    ensures small { IfOk result (λ t. (t.0 ≤ 315576000000) × (t.1 < 1000000000)) }
{
    let (digits, behind) = split_digits(text);
    if digits.is_empty() {
        return Err(TextFault::Form);
    }
    let Some(nanos) = nanos_before_s(behind) else {
        return Err(TextFault::Form);
    };
    match number_up_to(digits, MAX_SECONDS) {
        Some(seconds) => Ok((seconds, nanos)),
        None => Err(TextFault::Range),
    }
}

/// The same below 0.
fn negated(seconds: u64, nanos: u32) -> (i64, i32)
    requires seconds { seconds ≤ 315576000000 }
    requires nanos { nanos < 1000000000 }
    ensures { result ≡ negated_of (seconds, nanos) }
{
    (-(seconds as i64), -(nanos as i32))
}

/// The seconds and nanoseconds of a duration text. Takes no memory.
pub fn read_duration(text: &str) -> Result<(i64, i32), TextFault>
    ensures { result ≡ duration_read text.now }
{
    match text.as_bytes() {
        [b'-', length @ ..] => match read_length(length) {
            Ok((seconds, nanos)) => Ok(negated(seconds, nanos)),
            Err(fault) => Err(fault),
        },
        length => match read_length(length) {
            Ok((seconds, nanos)) => Ok((seconds as i64, nanos as i32)),
            Err(fault) => Err(fault),
        },
    }
}

/// Whether a duration may have these seconds and nanoseconds.
fn is_duration(seconds: i64, nanos: i32) -> bool
    ensures { result ≡ (is_duration_second seconds && nat_le (unsigned_abs nanos) 999999999 && signs_agree seconds nanos) }
{
    seconds.unsigned_abs() <= MAX_SECONDS
        && nanos.unsigned_abs() <= 999_999_999
        && ((seconds >= 0 && nanos >= 0) || (seconds <= 0 && nanos <= 0))
}

/// `-` where one of the two is below 0.
fn sign(seconds: i64, nanos: i32) -> &'static str
    ensures { result.now ≡ sign_text seconds nanos }
{
    if seconds >= 0 && nanos >= 0 { "" } else { "-" }
}

/// The text of a duration, with 0, 3, 6 or 9 digits of a second, the fewest that suffice.
fn text_of(alloc: Global, seconds: i64, nanos: i32) -> Result<Text, NoMemory>
    ensures { IfOk result (λ text. text ≡ sign_text seconds nanos ++ decimal (unsigned_abs seconds) ++ fraction_text_of (unsigned_abs nanos) ++ codes "s") }
{
    let mut buffer = Buffer::new();
    let whole = buffer.format(seconds.unsigned_abs());
    let fraction = fraction_text(alloc, nanos.unsigned_abs())?;
    Text::joined(
        alloc,
        &[sign(seconds, nanos), whole, fraction.as_str(), "s"],
    )
}

/// The duration text, with 0, 3, 6 or 9 digits of a second, the fewest that suffice.
#[tactic(auto, unfolding(crate::specs::Duration::duration_text))]
pub fn write_duration(alloc: Global, seconds: i64, nanos: i32) -> Result<Text, TextFault>
    ensures ok { IfOk result (λ text. duration_written seconds nanos ≡ Ok text) }
    ensures err { IfErr result (λ e. (e ≡ OutOfMemory) ⊎ (duration_written seconds nanos ≡ Err e)) }
{
    if !is_duration(seconds, nanos) {
        return Err(TextFault::Range);
    }
    Ok(text_of(alloc, seconds, nanos)?)
}
