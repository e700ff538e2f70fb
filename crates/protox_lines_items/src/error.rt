//! Why an item or a stream is not converted.

use pbx_json_meaning::JsonError;
use pbx_wire::DecodeError;

/// Why an item is not converted.
#[derive(Debug, Drop)]
pub enum ItemFault {
    /// `serde_json` does not read the line: it is no JSON text in UTF-8, nests deeper than 127, or has a number that is too large for a float.
    NotJson,
    /// The line stands for no message of the type, or the record's message is not written as JSON.
    Json(JsonError),
    /// The line's message nests more than 100 levels, or a payload in it does, or does not decode.
    TooDeep,
    /// The line has more than 16,777,216 bytes.
    TooLong,
    /// The record decodes to no message of the type.
    Decode(DecodeError),
    /// Memory ran out.
    NoMemory,
}

/// Why a stream is not converted to its end. Items are counted from 1; blank lines are none.
#[derive(Debug, Drop)]
pub enum LineError {
    /// `serde_json` does not read the line: it is no JSON text in UTF-8, nests deeper than 127, or has a number that is too large for a float.
    NotJson {
        /// Its number.
        item: u64,
    },
    /// The line stands for no message of the type, or the record's message is not written as JSON.
    Json {
        /// Its number.
        item: u64,
        /// The first fault of its tree, or a fault of writing it.
        error: JsonError,
    },
    /// The line's message nests more than 100 levels, or a payload in it does, or does not decode.
    TooDeep {
        /// Its number.
        item: u64,
    },
    /// The line has more than 16,777,216 bytes.
    LineTooLong {
        /// Its number.
        item: u64,
    },
    /// The length is a malformed varint.
    BadLength {
        /// The number of its record.
        item: u64,
    },
    /// The length is above 16,777,216.
    RecordTooLong {
        /// The number of its record.
        item: u64,
    },
    /// The stream ends inside the length or the bytes.
    CutOff {
        /// The number of their record.
        item: u64,
    },
    /// The record decodes to no message of the type.
    Decode {
        /// Its number.
        item: u64,
        /// What is wrong with its bytes.
        error: DecodeError,
    },
    /// More than 1,099,511,627,776 bytes were read.
    TooMuch,
    /// The source failed.
    ReadFault,
    /// The sink failed.
    WriteFault,
    /// Memory ran out.
    NoMemory,
}
