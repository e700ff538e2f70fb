//! What several subjects say, and how they cut texts.

use pbx_content::Schema;
use pbx_content_codec::{Contents, encode};
use pbx_desc_encoding::Message;
use pbx_wire::DecodeError;
use std::alloc::Global;
use test_rows::Stop;

/// The text in front of the first space, and the text behind it.
pub(crate) fn cut(text: &str) -> (&str, &str) {
    match text.split_once(' ') {
        Some(parts) => parts,
        None => (text, ""),
    }
}

/// The number, and 0 for one past 32 bits.
pub(crate) fn small(number: u64) -> u32 {
    u32::try_from(number).unwrap_or(0)
}

/// The bytes as an answer.
pub(crate) fn shown(alloc: Global, bytes: &[u8]) -> Result<String, Stop> {
    Ok(hex::encode(alloc, bytes)?)
}

/// Words as an answer.
pub(crate) fn words(alloc: Global, text: &str) -> Result<String, Stop> {
    Ok(String::from_str(alloc, text)?)
}

/// What is written for the contents, which are of the type at this place.
pub(crate) fn content_bytes(
    alloc: Global,
    schema: &Schema,
    at: usize,
    contents: &Contents,
) -> Result<String, Stop> {
    shown(alloc, encode(alloc, schema, at, contents)?.as_slice())
}

/// What is written for the message.
pub(crate) fn message_bytes<M: Message>(alloc: Global, message: &M) -> Result<String, Stop> {
    shown(alloc, message.encode_to_vec(alloc)?.as_slice())
}

/// A rule that bytes break, with the offset of the record that breaks it.
fn broken(alloc: Global, rule: &str, at: usize) -> Result<String, Stop> {
    Ok(format!(in alloc; "{rule} at {at}")?)
}

/// The fault as an answer.
pub(crate) fn fault_line(alloc: Global, fault: DecodeError) -> Result<String, Stop> {
    match fault {
        DecodeError::Varint(at) => broken(alloc, "varint", at),
        DecodeError::Key(at) => broken(alloc, "key", at),
        DecodeError::WireType(at) => broken(alloc, "wire type", at),
        DecodeError::Underflow(at) => broken(alloc, "underflow", at),
        DecodeError::Utf8(at) => broken(alloc, "utf8", at),
        DecodeError::EndGroup(at) => broken(alloc, "end group", at),
        DecodeError::TooDeep(at) => broken(alloc, "too deep", at),
        DecodeError::NoMemory => Err(Stop::NoMemory),
    }
}
