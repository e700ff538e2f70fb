//! The line that tells a fault of a tree.

ghost use Rattle.std.specs.Prelude.{◌≡◌, ◌++◌, IfOk, OnOk, string_bytes};
ghost use Rattle.std.specs.List.{concat};
ghost use Rattle.protox_transcode.specs.Json.{kind_text as kind_text_of, step_text, place_text as place_text_of, json_line as json_line_of};

use pbx_json::{JsonError, JsonKind, Step};
use pbx_text::write_unsigned;
use pbx_wire::{NoMemory, Text};
use std::alloc::Global;

/// What is wrong at the place.
fn kind_text(kind: JsonKind) -> &'static str
    ensures { result.now ≡ kind_text_of kind }
{
    match kind {
        JsonKind::WrongKind => "wrong kind of value",
        JsonKind::Range => "number out of range",
        JsonKind::NotDecimal => "not a decimal number",
        JsonKind::UnknownField => "unknown field",
        JsonKind::UnknownEnum => "unknown enum value",
        JsonKind::DuplicateField => "field given twice",
        JsonKind::DuplicateKey => "map key given twice",
        JsonKind::OneofTwice => "two members of one oneof",
        JsonKind::Base64 => "not base64",
        JsonKind::Timestamp => "not a timestamp",
        JsonKind::Duration => "not a duration",
        JsonKind::Mask => "not a field mask",
        JsonKind::AnyType => "no known type in @type",
        JsonKind::AnyValue => "no value beside @type",
        JsonKind::Float => "floating-point numbers are not supported",
        JsonKind::Shape => "well-known type of another shape",
        JsonKind::AnyPayload => "payload does not decode",
        JsonKind::NoMemory => "out of memory",
    }
}

/// Adds the step behind the place.
fn push_step(alloc: Global, place: &mut String, step: &Step) -> Result<(), NoMemory>
    ensures { OnOk result (string_bytes place.new ≡ string_bytes place.old ++ step_text step.now) }
{
    match step {
        Step::Key(key) => {
            place.push_str(".")?;
            place.push_str(key.as_str())?;
        }
        Step::Index(index) => {
            let number = write_unsigned(alloc, *index)?;
            place.push_str("[")?;
            place.push_str(number.as_str())?;
            place.push_str("]")?;
        }
    }
    Ok(())
}

/// The place, from the root `$`.
fn place_text(alloc: Global, steps: &[Step]) -> Result<String, NoMemory>
    ensures { IfOk result (λ place. string_bytes place ≡ place_text_of steps.now) }
{
    let mut place = String::from_str(alloc, "$")?;
    for step in steps {
        push_step(alloc, &mut place, step)?;
    }
    Ok(place)
}

/// The place of the fault, and what is wrong there, in one line where no key in it has a line feed. The only error is want of memory.
pub fn json_line(alloc: Global, error: &JsonError) -> Result<Text, NoMemory>
    ensures { IfOk result (λ line. line ≡ concat (json_line_of error.now)) }
{
    let place = place_text(alloc, error.place.as_slice())?;
    Text::joined(
        alloc,
        &["json at ", place.as_str(), ": ", kind_text(error.kind)],
    )
}
