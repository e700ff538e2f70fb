//! The line of an error.

ghost use Rattle.std.specs.Prelude.{◌≡◌, ◌∷◌, [], IfOk, codes};
ghost use Rattle.std.specs.List.{concat};
ghost use Rattle.protox_lines.specs.Lines.{error_line as error_line_of, item_line as item_line_of};

use pbx_text::write_unsigned;
use pbx_wire::{NoMemory, Text};
use protox_lines_items::LineError;
use protox_transcode::json_line;
use std::alloc::Global;

/// What is wrong with the item of this number.
fn item_line(alloc: Global, item: u64, words: &str) -> Result<Text, NoMemory>
    ensures { IfOk result (λ line. line ≡ concat (item_line_of item (words.now ∷ []))) }
{
    let number = write_unsigned(alloc, item)?;
    Text::joined(alloc, &["item ", number.as_str(), ": ", words])
}

/// What is wrong with which item, in one line where no key of JSON in it has a line feed. The only error is want of memory.
pub fn error_line(alloc: Global, error: &LineError) -> Result<Text, NoMemory>
    ensures { IfOk result (λ line. line ≡ concat (error_line_of error.now)) }
{
    match error {
        LineError::NotJson { item } => item_line(alloc, *item, "input is not JSON"),
        LineError::Json { item, error } => {
            let line = json_line(alloc, error)?;
            item_line(alloc, *item, line.as_str())
        }
        LineError::TooDeep { item } => item_line(
            alloc,
            *item,
            "message nests more than 100 levels",
        ),
        LineError::LineTooLong { item } => item_line(alloc, *item, "line too long"),
        LineError::BadLength { item } => item_line(alloc, *item, "length is malformed"),
        LineError::RecordTooLong { item } => item_line(alloc, *item, "record too long"),
        LineError::CutOff { item } => item_line(alloc, *item, "record is cut off"),
        LineError::Decode { item, .. } => item_line(alloc, *item, "record does not decode"),
        LineError::TooMuch => Text::from_str(alloc, "input is longer than 1099511627776 bytes"),
        LineError::ReadFault => Text::from_str(alloc, "reading input failed"),
        LineError::WriteFault => Text::from_str(alloc, "writing output failed"),
        LineError::NoMemory => Text::from_str(alloc, "out of memory"),
    }
}
