// Whole numbers as trees and as texts.
ghost use Rattle.std.specs.Prelude.{◌≡◌, ◌<ℤ◌, Ok, Err, pos, negsuc, IfOk, IfErr, ◌^◌, ◌≤◌};
ghost use Rattle.serde_json.specs.Data.{string};
ghost use Rattle.serde_json.specs.View.{view};
ghost use Rattle.pbx_json_meaning.specs.Scalars.{in_range as in_range_of, integer_read};

use pbx_json_meaning::JsonKind;
use pbx_text::{TextFault, read_signed, read_unsigned};
use serde_json::Value;

/// The number, if it lies from `min` to `max`.
fn in_range(number: i128, min: i64, max: i64) -> Result<i64, JsonKind>
    ensures { result ≡ in_range_of min max number }
{
    if i128::from(min) <= number && number <= i128::from(max) {
        Ok(number as i64)
    } else {
        Err(JsonKind::Range)
    }
}

/// The number, if it lies from 0 to `max`.
fn in_unsigned_range(number: i128, max: u64) -> Result<u64, JsonKind>
    ensures ok { IfOk result (λ n. in_range_of (pos 0) (pos max) number ≡ Ok (pos n)) }
    ensures err { IfErr result (λ e. in_range_of (pos 0) (pos max) number ≡ Err e) }
{
    if 0 <= number && number <= i128::from(max) {
        Ok(number as u64)
    } else {
        Err(JsonKind::Range)
    }
}

/// The number of a decimal text, of a kind that has numbers below 0.
pub(crate) fn signed_text(text: &str, min: i64, max: i64) -> Result<i64, JsonKind>
    requires { min <ℤ pos 0 }
    ensures { result ≡ integer_read min max (string text.now) }
{
    match read_signed(text, min, max) {
        Ok(number) => Ok(number),
        Err(TextFault::Form) => Err(JsonKind::NotDecimal),
        Err(_) => Err(JsonKind::Range),
    }
}

/// The number of a decimal text, of a kind that has none.
pub(crate) fn unsigned_text(text: &str, max: u64) -> Result<u64, JsonKind>
    ensures ok { IfOk result (λ n. integer_read (pos 0) (pos max) (string text.now) ≡ Ok (pos n)) }
    ensures err { IfErr result (λ e. integer_read (pos 0) (pos max) (string text.now) ≡ Err e) }
{
    match read_unsigned(text, max) {
        Ok(number) => Ok(number),
        Err(TextFault::Form) => Err(JsonKind::NotDecimal),
        Err(_) => Err(JsonKind::Range),
    }
}

/// The integer that a tree is, of a kind that has numbers below 0.
pub(crate) fn signed(tree: &Value, min: i64, max: i64) -> Result<i64, JsonKind>
    requires { min <ℤ pos 0 }
    ensures { result ≡ integer_read min max (view tree.now) }
{
    match tree {
        Value::Number(number) => match number.as_i128() {
            Some(number) => in_range(number, min, max),
            None => Err(JsonKind::Float),
        },
        Value::String(text) => signed_text(text.as_str(), min, max),
        _ => Err(JsonKind::WrongKind),
    }
}

/// The integer that a tree is, of a kind that has none.
pub(crate) fn unsigned(tree: &Value, max: u64) -> Result<u64, JsonKind>
    ensures ok { IfOk result (λ n. integer_read (pos 0) (pos max) (view tree.now) ≡ Ok (pos n)) }
    ensures err { IfErr result (λ e. integer_read (pos 0) (pos max) (view tree.now) ≡ Err e) }
{
    match tree {
        Value::Number(number) => match number.as_i128() {
            Some(number) => in_unsigned_range(number, max),
            None => Err(JsonKind::Float),
        },
        Value::String(text) => unsigned_text(text.as_str(), max),
        _ => Err(JsonKind::WrongKind),
    }
}
