ghost use Rattle.std.specs.Prelude.{◌≡◌, ◌⊎◌, ◌≤◌, ◌<◌, ◌+◌, ◌-ℤ◌, ◌*◌, ◌++◌, ◌&&◌, true, if◌then◌else◌, int_le, pos, unsigned_abs, Some, None, Ok};
ghost use Rattle.std.specs.Prelude.{Err, IfSome, IfOk, IfErr, IsTrue, OnOk, codes, length, take, drop, string_bytes};
ghost use Rattle.std.specs.List.{list_all};
ghost use Rattle.jiff_core.specs.Calendar.{days_from_civil, IsBetween, IsWithin};
ghost use Rattle.pbx_text.specs.Decimal.{is_digit};
ghost use Rattle.pbx_text.specs.Clock.{digits_at, fits_picture};
ghost use Rattle.pbx_text.specs.Timestamp.{clock_text, date_text, instant_text, is_civil_date, is_clock_time, is_local, is_timestamp_second};
ghost use Rattle.pbx_text.specs.Timestamp.{least_seconds, local_seconds, offset_seconds, timestamp_of, timestamp_read, timestamp_written, zone_of};
ghost use Rattle.pbx_text.specs.declared.fault.TextFault.TheVariants.{NoMemory as OutOfMemory};

use crate::clock::{fits, fraction_text, number_up_to, push_padded, split_fraction};
use crate::fault::TextFault;
use jiff_core::civil::Date;
use pbx_wire::{NoMemory, Text};
use std::alloc::Global;

/// 0001-01-01T00:00:00Z, in seconds since 1970.
const LEAST_SECONDS: i64 = -62_135_596_800;

/// 9999-12-31T23:59:59Z, in seconds since 1970.
const GREATEST_SECONDS: i64 = 253_402_300_799;

/// 0001-01-01, in days since the first day that `Date` has.
const FIRST_DAY: u32 = 3_652_425;

/// The days since 1970 of a day of the calendar.
#[tactic(auto, using(crate::proofs::Days::day_is, crate::proofs::Days::no_day))]
fn day_number(year: u64, month: u64, day: u64) -> Option<i64>
    requires year { year ≤ 9999 }
    requires month { month ≤ 12 }
    requires day { day ≤ 31 }
    ensures value { result ≡ (if is_civil_date year month day then Some (days_from_civil (pos year) month day) else None) }
    ensures small { IfSome result (λ days. IsWithin 4371587 days) }
{
    match Date::new(year as i16, month as i8, day as i8) {
        Ok(date) => Some(i64::from(date.to_unix_epoch_day())),
        Err(_) => None,
    }
}

/// The days since 1970 of the date in a text of the form `YYYY-MM-DDTHH:MM:SS`.
#[tactic(auto, using(crate::proofs::Pictures::local_length, crate::proofs::Pictures::year_digits, crate::proofs::Pictures::month_digits, crate::proofs::Pictures::day_digits, crate::proofs::Pictures::year_low, crate::proofs::Days::far_month, crate::proofs::Days::far_day,))]
fn read_day(text: &[u8]) -> Option<i64>
    requires { fits_picture (codes "0000-00-00T00:00:00") text.now ≡ true }
    ensures value { result ≡ (if is_civil_date (digits_at 0 4 text.now) (digits_at 5 2 text.now) (digits_at 8 2 text.now)
        then Some (days_from_civil (pos (digits_at 0 4 text.now)) (digits_at 5 2 text.now) (digits_at 8 2 text.now)) else None) }
    ensures small { IfSome result (λ days. IsWithin 4371587 days) }
{
    let year = number_up_to(&text[0..4], 9999)?;
    let month = number_up_to(&text[5..7], 12)?;
    let day = number_up_to(&text[8..10], 31)?;
    day_number(year, month, day)
}

/// The seconds since midnight of the time in a text of that form.
#[tactic(auto, using(crate::proofs::Pictures::local_length, crate::proofs::Pictures::hour_digits, crate::proofs::Pictures::minute_digits, crate::proofs::Pictures::second_digits, crate::proofs::Days::far_hour, crate::proofs::Days::far_minute, crate::proofs::Days::far_second,))]
fn read_clock(text: &[u8]) -> Option<u64>
    requires { fits_picture (codes "0000-00-00T00:00:00") text.now ≡ true }
    ensures value { result ≡ (if is_clock_time (digits_at 11 2 text.now) (digits_at 14 2 text.now) (digits_at 17 2 text.now)
        then Some (digits_at 11 2 text.now * 3600 + digits_at 14 2 text.now * 60 + digits_at 17 2 text.now) else None) }
    ensures small { IfSome result (λ seconds. seconds < 86400) }
{
    let hour = number_up_to(&text[11..13], 23)?;
    let minute = number_up_to(&text[14..16], 59)?;
    let second = number_up_to(&text[17..19], 59)?;
    Some(hour * 3600 + minute * 60 + second)
}

/// The seconds since 1970 that a text `YYYY-MM-DDTHH:MM:SS` says, as if in universal time.
fn read_local(text: &[u8]) -> Option<i64>
    ensures value { result ≡ (if is_local text.now then Some (local_seconds text.now) else None) }
    ensures small { IfSome result (λ seconds. IsWithin 377705203200 seconds) }
{
    if !fits(b"0000-00-00T00:00:00", text) {
        return None;
    }
    let day = read_day(text)?;
    let second = read_clock(text)?;
    Some(day * 86_400 + second as i64)
}

/// The seconds of the hours and minutes in a text of the form `+HH:MM`, whatever the sign is.
fn read_offset(text: &[u8]) -> Option<i64>
    requires length { length text.now ≡ 6 }
    requires hour { list_all is_digit (take 2 (drop 1 text.now)) ≡ true }
    requires minute { list_all is_digit (take 2 (drop 4 text.now)) ≡ true }
    ensures value { result ≡ offset_seconds text.now }
    ensures small { IfSome result (λ seconds. IsBetween (pos 0) (pos 86399) seconds) }
{
    let hour = number_up_to(&text[1..3], 23)?;
    let minute = number_up_to(&text[4..6], 59)?;
    Some((hour * 3600 + minute * 60) as i64)
}

/// The seconds that a zone, `Z` or a sign and `HH:MM`, is ahead of universal time.
fn read_zone(text: &[u8]) -> Option<i64>
    ensures value { result ≡ zone_of text.now }
    ensures small { IfSome result (λ seconds. IsWithin 86399 seconds) }
{
    if let [b'Z'] = text {
        return Some(0);
    }
    if fits(b"+00:00", text) {
        return read_offset(text);
    }
    if fits(b"-00:00", text) {
        return Some(-read_offset(text)?);
    }
    None
}

/// The seconds since 1970 and the nanoseconds of a text of the grammar, whether in range or not.
fn read_instant(text: &[u8]) -> Option<(i64, i32)>
    ensures { result ≡ timestamp_of text.now }
{
    if text.len() < 19 {
        return None;
    }
    let (local, behind) = text.split_at(19);
    let local = read_local(local)?;
    let (nanos, zone) = split_fraction(behind)?;
    let offset = read_zone(zone)?;
    Some((local - offset, nanos as i32))
}

/// The seconds since 1970 and the nanoseconds of a timestamp text: `YYYY-MM-DDTHH:MM:SS`, an optional fraction, of which nine
/// digits count, and `Z` or an offset, which is taken off. `Range` where the seconds are before the year 1 or behind the
/// year 9999. Takes no memory.
pub fn read_timestamp(text: &str) -> Result<(i64, i32), TextFault>
    ensures { result ≡ timestamp_read text.now }
{
    let Some((seconds, nanos)) = read_instant(text.as_bytes()) else {
        return Err(TextFault::Form);
    };
    if seconds < LEAST_SECONDS || seconds > GREATEST_SECONDS {
        return Err(TextFault::Range);
    }
    Ok((seconds, nanos))
}

/// Adds `YYYY-MM-DD` of a day, counted from 0001-01-01.
#[tactic(auto, using(crate::proofs::Dates::date_pushed))]
fn push_date(text: &mut String, day: u32) -> Result<(), NoMemory>
    requires { day ≤ 3652058 }
    ensures { OnOk result (string_bytes text.new ≡ string_bytes text.old ++ date_text day) }
{
    let date = Date::from_days_since_min(day + FIRST_DAY);
    push_padded(text, 4, u32::from(date.year.unsigned_abs()))?;
    text.push('-')?;
    push_padded(text, 2, u32::from(date.month))?;
    text.push('-')?;
    push_padded(text, 2, u32::from(date.day))
}

/// Adds `HH:MM:SS` of a second of the day.
#[tactic(auto, using(crate::proofs::Dates::clock_pushed))]
fn push_clock(text: &mut String, second: u32) -> Result<(), NoMemory>
    ensures { OnOk result (string_bytes text.new ≡ string_bytes text.old ++ clock_text second) }
{
    push_padded(text, 2, second / 3600)?;
    text.push(':')?;
    push_padded(text, 2, second / 60 % 60)?;
    text.push(':')?;
    push_padded(text, 2, second % 60)
}

/// The text of so many seconds from 0001-01-01T00:00:00Z, and nanoseconds.
fn text_of(alloc: Global, since: u64, nanos: u32) -> Result<Text, NoMemory>
    requires { since ≤ 315537897599 }
    ensures { IfOk result (λ text. text ≡ instant_text since nanos) }
{
    let mut local = String::new(alloc);
    push_date(&mut local, (since / 86_400) as u32)?;
    local.push('T')?;
    push_clock(&mut local, (since % 86_400) as u32)?;
    let fraction = fraction_text(alloc, nanos)?;
    Text::joined(alloc, &[local.as_str(), fraction.as_str(), "Z"])
}

/// The seconds from 0001-01-01T00:00:00Z.
fn seconds_since_first(seconds: i64) -> u64
    requires { is_timestamp_second seconds ≡ true }
    ensures value { result ≡ unsigned_abs (seconds -ℤ least_seconds) }
    ensures small { result ≤ 315537897599 }
{
    (seconds - LEAST_SECONDS).unsigned_abs()
}

/// Whether a timestamp may have these seconds and nanoseconds.
fn is_timestamp(seconds: i64, nanos: i32) -> bool
    ensures { result ≡ (is_timestamp_second seconds && int_le (pos 0) nanos && int_le nanos (pos 999999999)) }
{
    seconds >= LEAST_SECONDS && seconds <= GREATEST_SECONDS && nanos >= 0 && nanos <= 999_999_999
}

/// The timestamp text, in universal time, with 0, 3, 6 or 9 digits of a second, the fewest that suffice. `Range` where the seconds are
/// before the year 1 or behind the year 9999, or the nanoseconds are not from 0 to 999,999,999.
#[tactic(auto, unfolding(crate::specs::Timestamp::timestamp_text))]
pub fn write_timestamp(alloc: Global, seconds: i64, nanos: i32) -> Result<Text, TextFault>
    ensures ok { IfOk result (λ text. timestamp_written seconds nanos ≡ Ok text) }
    ensures err { IfErr result (λ e. (e ≡ OutOfMemory) ⊎ (timestamp_written seconds nanos ≡ Err e)) }
{
    if !is_timestamp(seconds, nanos) {
        return Err(TextFault::Range);
    }
    let since = seconds_since_first(seconds);
    Ok(text_of(alloc, since, nanos.unsigned_abs())?)
}
