//! Decodes a message and encodes it again.
//!
//! Of a run with words the one word is a shape, as `test_rows` says; the input is a message of its first type. Two words are the bytes of a
//! `FileDescriptorSet` in hexadecimal digits and the full name of a type of its pool; the input is then read as a dynamic message. The output is the
//! message's canonical encoding. The status is 1, with a line on err, where the input is no such message, 2 where the words name no type, 3 where a
//! stream fails, and 4 for want of memory.

use hex::FromHexError;
use pbx_content::Schema;
use pbx_content_codec::{decode, encode};
use pbx_desc_encoding::Message;
use pbx_link::{DescriptorError, DescriptorPool};
use pbx_message_dynamic::DynamicMessage;
use pbx_wire::{Blob, DecodeError, NoMemory};
use protox_io::{ReadFault, RealSink, RealSource, Sink, SinkError, Source, read_to_end, write_all};
use std::alloc::{AllocError, Global};
use std::env;
use std::mem::drop;
use std::process::ExitCode;
use test_rows::{Row, ShapeTextError, Stop, schema};

/// The greatest message, in bytes.
const LIMIT: usize = 1 << 30;

/// Why nothing is written.
#[derive(Drop)]
pub(crate) enum RecodeError {
    NoMessage,
    NoType,
    Stream,
    NoMemory,
}

impl From<NoMemory> for RecodeError {
    fn from(_refused: NoMemory) -> RecodeError {
        RecodeError::NoMemory
    }
}

impl From<ShapeTextError> for RecodeError {
    fn from(refused: ShapeTextError) -> RecodeError {
        match refused {
            ShapeTextError::NoShape => RecodeError::NoType,
            ShapeTextError::NoMemory => RecodeError::NoMemory,
        }
    }
}

impl From<FromHexError> for RecodeError {
    fn from(refused: FromHexError) -> RecodeError {
        match refused {
            FromHexError::OutOfMemory => RecodeError::NoMemory,
            _ => RecodeError::NoType,
        }
    }
}

impl From<DescriptorError> for RecodeError {
    fn from(refused: DescriptorError) -> RecodeError {
        match refused {
            DescriptorError::NoMemory => RecodeError::NoMemory,
            _ => RecodeError::NoType,
        }
    }
}

impl From<AllocError> for RecodeError {
    fn from(_refused: AllocError) -> RecodeError {
        RecodeError::NoMemory
    }
}

impl From<DecodeError> for RecodeError {
    fn from(fault: DecodeError) -> RecodeError {
        match fault {
            DecodeError::NoMemory => RecodeError::NoMemory,
            _ => RecodeError::NoMessage,
        }
    }
}

impl From<ReadFault> for RecodeError {
    fn from(fault: ReadFault) -> RecodeError {
        match fault {
            ReadFault::NoMemory => RecodeError::NoMemory,
            _ => RecodeError::Stream,
        }
    }
}

impl From<SinkError> for RecodeError {
    fn from(error: SinkError) -> RecodeError {
        match error {
            SinkError::NoMemory => RecodeError::NoMemory,
            SinkError::Failed => RecodeError::Stream,
        }
    }
}

impl From<RecodeError> for Stop {
    fn from(refused: RecodeError) -> Stop {
        match refused {
            RecodeError::NoMemory => Stop::NoMemory,
            _ => Stop::NoSuchWord,
        }
    }
}

/// What is written for what the bytes mean as a message of the schema's first type.
fn recoded_by(alloc: Global, schema: &Schema, bytes: &[u8]) -> Result<Blob, RecodeError> {
    let contents = decode(alloc, schema, 0, bytes)?;
    let written = encode(alloc, schema, 0, &contents);
    drop(contents);
    Ok(written?)
}

/// The same of the shape's first type.
fn recoded(alloc: Global, shape: &str, bytes: &[u8]) -> Result<Blob, RecodeError> {
    let schema = schema(alloc, shape)?;
    let written = recoded_by(alloc, &schema, bytes);
    drop(schema);
    written
}

/// What is written for the dynamic message of a type of the pool that the bytes mean.
fn recoded_in(
    alloc: Global,
    pool: &DescriptorPool,
    type_name: &str,
    bytes: &[u8],
) -> Result<Vec<u8>, RecodeError> {
    let Some(desc) = pool.get_message_by_name(type_name) else {
        return Err(RecodeError::NoType);
    };
    let message = DynamicMessage::decode(alloc, desc, bytes)?;
    let written = message.encode_to_vec(alloc);
    drop(message);
    Ok(written?)
}

/// The same of a type of the set's pool.
fn recoded_as(
    alloc: Global,
    set: &str,
    type_name: &str,
    bytes: &[u8],
) -> Result<Vec<u8>, RecodeError> {
    let set = hex::decode(alloc, set)?;
    let pool = DescriptorPool::decode(alloc, set.as_slice())?;
    let written = recoded_in(alloc, &pool, type_name, bytes);
    drop(pool);
    written
}

fn recode<S: Source, K: Sink>(
    alloc: Global,
    words: &[String],
    input: &mut S,
    out: &mut K,
) -> Result<(), RecodeError> {
    let bytes = read_to_end(alloc, input, LIMIT)?;
    match words {
        [shape] => {
            let written = recoded(alloc, shape.as_str(), bytes.as_slice())?;
            write_all(out, written.as_slice())?;
        }
        [set, name] => {
            let written = recoded_as(alloc, set.as_str(), name.as_str(), bytes.as_slice())?;
            write_all(out, written.as_slice())?;
        }
        _ => return Err(RecodeError::NoType),
    }
    Ok(())
}

/// The line of the stop, and the status.
fn said(stop: &RecodeError) -> (&[u8], u8) {
    match stop {
        RecodeError::NoMessage => (b"error: the input is no message of the type\n", 1),
        RecodeError::NoType => (b"error: the words name no type\n", 2),
        RecodeError::Stream => (b"error: a stream failed\n", 3),
        RecodeError::NoMemory => (b"error: out of memory\n", 4),
    }
}

/// What is written for the message of the row's bytes, of the row's shape or of a type of its set.
pub(crate) fn answer(alloc: Global, row: &Row, word: &str) -> Result<String, Stop> {
    let bytes = hex::decode(alloc, row.text(row.len().saturating_sub(1)))?;
    match word {
        "shape" => {
            let written = recoded(alloc, row.text(0), bytes.as_slice())?;
            Ok(hex::encode(alloc, written.as_slice())?)
        }
        "type" => {
            let written = recoded_as(alloc, row.text(0), row.text(1), bytes.as_slice())?;
            Ok(hex::encode(alloc, written.as_slice())?)
        }
        _ => Err(Stop::NoSuchWord),
    }
}

/// The words behind the program's name.
pub(crate) fn words(rt: &HostRuntime) -> Result<Vec<String>, AllocError> {
    let mut words = Vec::new(rt.alloc());
    let Ok(all) = env::args(rt) else {
        return Ok(words);
    };
    for word in all.skip(1) {
        words.push(word)?;
    }
    Ok(words)
}

/// Decodes and encodes the input as the words say; the status.
pub(crate) fn run(rt: &HostRuntime, words: &[String]) -> ExitCode {
    let mut err = RealSink::new(rt.stderr());
    let mut input = RealSource::new(rt.stdin());
    let mut out = RealSink::new(rt.stdout());
    match recode(rt.alloc(), words, &mut input, &mut out) {
        Ok(()) => ExitCode::from(0),
        Err(stop) => {
            let (line, status) = said(&stop);
            // Nothing more can be said where err fails too.
            let _ = write_all(&mut err, line);
            ExitCode::from(status)
        }
    }
}
