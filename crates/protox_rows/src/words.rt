//! The words of a command line: `read` asks what they mean, and each field is a word.
//!
//! The answer is `ok` with the options, each by its first spelling, the files, and behind `|` the folders that files are read
//! from, or the line of the fault. Texts stand between single quotes.

use crate::stop::Stop;
use pbx_wire::{NoMemory, Text, Texts};
use protox_words::{Args, JsonFlags, WordFault, WordsError, read_words};
use std::alloc::{AllocError, Global};
use test_rows::Row;

fn add_text(line: &mut String, option: &str, text: &str) -> Result<(), AllocError> {
    line.push_str(option)?;
    line.push_str(" '")?;
    line.push_str(text)?;
    line.push_str("'")
}

fn add_texts(line: &mut String, option: &str, texts: &Texts) -> Result<(), AllocError> {
    for text in texts.as_slice() {
        add_text(line, option, text.as_str())?;
    }
    Ok(())
}

fn add_value(line: &mut String, option: &str, value: Option<&str>) -> Result<(), AllocError> {
    match value {
        Some(text) => add_text(line, option, text),
        None => Ok(()),
    }
}

fn add_switch(line: &mut String, option: &str, is_given: bool) -> Result<(), AllocError> {
    if is_given {
        return line.push_str(option);
    }
    Ok(())
}

fn add_count(
    alloc: Global,
    line: &mut String,
    option: &str,
    count: Option<u16>,
) -> Result<(), AllocError> {
    match count {
        Some(count) => line.push_str(format!(in alloc; "{option} {count}")?.as_str()),
        None => Ok(()),
    }
}

/// Adds the flags of the JSON, and behind them the first that was given as it is written.
fn add_json(line: &mut String, json: &JsonFlags<'_>) -> Result<(), AllocError> {
    add_switch(line, " --json_int64_numbers", json.int64_numbers)?;
    add_switch(line, " --json_enum_numbers", json.enum_numbers)?;
    add_switch(line, " --json_proto_names", json.proto_names)?;
    add_switch(line, " --json_defaults", json.defaults)?;
    add_value(line, " first", json.first)
}

/// Adds what the words ask for.
fn add_args(alloc: Global, line: &mut String, args: &Args<'_>) -> Result<(), NoMemory> {
    add_texts(line, " -I", &args.includes)?;
    add_value(line, " -o", args.output)?;
    add_switch(line, " --include_imports", args.include_imports)?;
    add_switch(line, " --include_source_info", args.include_source_info)?;
    add_value(line, " --descriptor_set_in", args.descriptor_set_in)?;
    add_count(alloc, line, " --retries", args.retries)?;
    add_value(line, " --type", args.type_name)?;
    add_value(line, " --wire", args.wire)?;
    add_json(line, &args.json)?;
    add_count(alloc, line, " --generate", args.generate)?;
    add_texts(line, "", &args.files)?;
    line.push_str(" |")?;
    add_texts(line, "", &args.folders(alloc)?)?;
    Ok(())
}

/// The words of a row.
fn words_of(alloc: Global, row: &Row) -> Result<Texts, NoMemory> {
    let mut words = Texts::new(alloc);
    for at in 0..row.len() {
        words.add(Text::from_str(alloc, row.text(at))?)?;
    }
    Ok(words)
}

/// What the words ask for.
fn args_told(alloc: Global, args: &Args<'_>) -> Result<String, Stop> {
    let mut line = String::from_str(alloc, "ok")?;
    add_args(alloc, &mut line, args)?;
    Ok(line)
}

/// The line of a fault.
fn fault_told(alloc: Global, fault: &WordFault<'_>) -> Result<String, Stop> {
    let line = fault.line(alloc)?;
    Ok(String::from_str(alloc, line.as_str())?)
}

/// What is told of the words.
fn told(alloc: Global, words: &Texts) -> Result<String, Stop> {
    match read_words(alloc, words) {
        Ok(args) => args_told(alloc, &args),
        Err(WordsError::Fault(fault)) => fault_told(alloc, &fault),
        Err(WordsError::NoMemory) => Err(Stop::NoMemory),
    }
}

/// What the word asks of the words of a command line.
pub(crate) fn answer(alloc: Global, row: &Row, word: &str) -> Result<String, Stop> {
    match word {
        "read" => {
            let words = words_of(alloc, row)?;
            told(alloc, &words)
        }
        _ => Err(Stop::NoSuchWord),
    }
}
