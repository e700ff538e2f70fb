//! Asks of `pbx_message_dynamic`, `pbx_json` and `pbx_message`, as rows of data; or, with words, decodes a message and encodes it again.
//!
//! A row has a word, and what the word asks for. Of a dynamic message, the bytes of a `FileDescriptorSet` in hexadecimal digits follow, the full
//! name of a type of its pool and the bytes of a message of the type. `read` asks for that message alone; `merge` for what it is with the bytes of
//! the next field behind it; `clear` without the field that the next field names; `set` with that field set to the value of a field of another
//! message, of which the type, the bytes and the field stand behind it; `get` for the value of a field. A field is named by its name, by `TYPE#NAME`
//! as the field of that name of a type, or by `[NAME]` as the extension of that full name. `nest` names a field of the message's own type and its form,
//! `one`, `many` or `map`, and a number: the message is put into a new one, that into another, and so many times; with one more number the field is
//! cleared then, and what is left is put into others so many times. It asks how deep the message nests then, how long its bytes are, and as `json levels`.
//!
//! `json` and a word ask of the set and a type of its pool, which stand in the first two fields:
//!
//! - `read` has `deny` or `allow`, what becomes of unknown fields, and a JSON text, and asks for the bytes of the message that it stands for and the
//!   canonical text; `write` has letters for options (`s` integers of 64 bits as numbers, `e` enums as numbers, `p` fields under their own names, `d`
//!   defaults too) and the bytes of a message, and asks for its text;
//! - `levels` has a JSON text and `fits` the bytes of a message, and both ask whether the message and its payloads nest few levels, and the payloads
//!   decode; `deep` has a number, and asks the same of a tree of so many levels;
//! - `shape` asks whether the type has the shape of its well-known name; `names` has the set alone, and asks for the first key that has two meanings.
//!
//! `value` and the name of a type, as `i32`, `Struct` or `DescriptorProto`, ask which type of a pool a value has, and what its dynamic message is
//! written as. The next field is the pool: `built-in`, `empty`, or the set. Then comes the value: a number, a truth value, a text or bytes as they
//! are, and of a record its bytes in hexadecimal digits. `Box<i32>` asks of a number in a box, and `DynamicMessage` of the message of the built-in
//! type that one more field names. The answer is the full name of the type, and the bytes of the dynamic message or why there is none.
//!
//! `recode shape` has a shape, as `test_rows` says, and bytes in hexadecimal digits, and asks for the canonical encoding of the message of its
//! first type that they mean. `recode type` asks the same of a set, a type of its pool and bytes. Where the program is given words, it answers no
//! rows, but does this with its input, for `bench/wire`.
//!
//! What is wanted is made by checks/message-rows, checks/json-rows and checks/reflection-rows.
#![tactic(auto)]

mod fields;
mod json;
mod json_deep;
mod json_faults;
mod messages;
mod nesting;
mod recode;
mod records;
mod reflected;
mod reflected_records;
mod reflected_values;
mod said;
mod values;

use pbx_link::DescriptorPool;
use std::alloc::{AllocError, Global};
use std::io;
use std::process::ExitCode;
use test_rows::{Row, Stop, line_of};

/// The pool of the set of these bytes in hexadecimal digits.
fn pool_of(alloc: Global, digits: &str) -> Result<DescriptorPool, Stop> {
    let bytes = hex::decode(alloc, digits)?;
    match DescriptorPool::decode(alloc, bytes.as_slice()) {
        Ok(pool) => Ok(pool),
        Err(_) => Err(Stop::NoSuchWord),
    }
}

fn answer(alloc: Global, row: &Row) -> Result<String, Stop> {
    let (subject, word) = row.asked().split_once(' ').unwrap_or(("", row.asked()));
    match subject {
        "json" => json::answer(alloc, row, word),
        "value" => reflected_values::answer(alloc, row, word),
        "recode" => recode::answer(alloc, row, word),
        _ => messages::answer(alloc, row),
    }
}

/// The line for a row.
fn told(alloc: Global, line: &str) -> Result<String, AllocError> {
    let row = Row::read(alloc, line)?;
    line_of(alloc, &row, answer(alloc, &row))
}

fn answer_rows(rt: &HostRuntime) -> io::Result<()> {
    for line in rt.lines(rt.alloc()) {
        let told = told(rt.alloc(), line?.as_str())?;
        println!(rt; "{told}")?;
    }
    Ok(())
}

/// Answers the rows of the input, or with words decodes and encodes it. The status is 0, or as `recode` says; and of rows 3 where a stream fails or
/// memory runs out.
fn main(rt: HostRuntime) -> ExitCode {
    let Ok(words) = recode::words(&rt) else {
        return ExitCode::from(4);
    };
    if !words.is_empty() {
        return recode::run(&rt, words.as_slice());
    }
    match answer_rows(&rt) {
        Ok(()) => ExitCode::from(0),
        Err(_) => ExitCode::from(3),
    }
}
