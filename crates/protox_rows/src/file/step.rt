//! The steps of a row: pairs of fields.

use pbx_wire::{NoMemory, Text, Texts};
use std::alloc::Global;
use test_rows::Row;

/// What is done, and what it is done with.
#[derive(Clone, Copy)]
pub(crate) struct Step<'a> {
    /// The first word of the first field.
    pub(crate) word: &'a str,
    /// What stands behind that word.
    pub(crate) name: &'a str,
    /// The second field.
    pub(crate) text: &'a str,
    /// The same as bytes.
    pub(crate) bytes: &'a [u8],
}

/// How many steps the row has.
pub(crate) fn steps(row: &Row) -> usize {
    row.len() / 2
}

/// The step of that number, from 0.
pub(crate) fn step_at(row: &Row, number: usize) -> Step<'_> {
    let at = number.saturating_mul(2);
    let first = row.text(at);
    let (word, name) = first.split_once(' ').unwrap_or((first, ""));
    Step {
        word,
        name,
        text: row.text(at.saturating_add(1)),
        bytes: row.bytes(at.saturating_add(1)),
    }
}

/// The number that the text is, or 0.
pub(crate) fn number(text: &str) -> u64 {
    text.parse::<u64>().unwrap_or(0)
}

/// The same of 32 bits.
pub(crate) fn small_number(text: &str) -> u32 {
    text.parse::<u32>().unwrap_or(0)
}

/// What stands before the first comma with a space, and what stands behind it.
pub(crate) fn halves(text: &str) -> (&str, &str) {
    text.split_once(", ").unwrap_or((text, ""))
}

/// Adds the texts between commas with spaces.
pub(crate) fn add_texts(alloc: Global, texts: &mut Texts, list: &str) -> Result<(), NoMemory> {
    if list.is_empty() {
        return Ok(());
    }
    for text in list.split(", ") {
        texts.add(Text::from_str(alloc, text)?)?;
    }
    Ok(())
}
