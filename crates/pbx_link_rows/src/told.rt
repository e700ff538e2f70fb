//! The answer to a row.

use hex::FromHexError;
use pbx_content::Kind;
use pbx_wire::{DecodeError, NoMemory};
use std::alloc::{AllocError, Global};

/// The word, where it holds.
pub(crate) fn where_it(holds: bool, word: &'static str) -> &'static str {
    if holds { word } else { "" }
}

/// What was told so far.
#[derive(Drop)]
pub(crate) struct Told {
    text: String,
    /// Whether memory ran out for a part of it.
    is_short: bool,
}

impl Told {
    /// Nothing.
    pub(crate) fn new(alloc: Global) -> Told {
        Told {
            text: String::new(alloc),
            is_short: false,
        }
    }

    /// All that was told, unless memory ran out.
    pub(crate) fn text(&self) -> Result<&str, AllocError> {
        if self.is_short {
            return Err(AllocError);
        }
        Ok(self.text.as_str())
    }

    /// Memory ran out.
    pub(crate) fn run_short(&mut self) {
        self.is_short = true;
    }

    /// Adds the words.
    pub(crate) fn add(&mut self, words: &str) {
        if self.text.push_str(words).is_err() {
            self.is_short = true;
        }
    }

    /// Adds the words, one behind another.
    pub(crate) fn add_all(&mut self, all: &[&str]) {
        for words in all {
            self.add(words);
        }
    }

    /// Adds the number.
    pub(crate) fn add_number(&mut self, number: i128) {
        if write!(self.text, "{number}").is_err() {
            self.is_short = true;
        }
    }

    /// Adds the numbers with points between them.
    pub(crate) fn add_place(&mut self, place: &[i32]) {
        let mut point = "";
        for step in place {
            self.add(point);
            self.add_number(i128::from(*step));
            point = ".";
        }
    }

    /// Adds the count.
    pub(crate) fn add_count(&mut self, count: usize) {
        self.add_number(count as i128);
    }

    /// Adds the words and the count behind them.
    pub(crate) fn add_counted(&mut self, words: &str, count: usize) {
        self.add(words);
        self.add_count(count);
    }

    /// Adds the two bounds of a count.
    pub(crate) fn add_hint(&mut self, hint: (usize, Option<usize>)) {
        if write!(self.text, " {hint:?} ").is_err() {
            self.is_short = true;
        }
    }

    /// Adds the fault of bytes.
    pub(crate) fn add_fault(&mut self, fault: DecodeError) {
        if write!(self.text, "{fault}; ").is_err() {
            self.is_short = true;
        }
    }

    /// Adds the word of a kind of values.
    pub(crate) fn add_kind(&mut self, kind: Kind) {
        if write!(self.text, " {kind:?}").is_err() {
            self.is_short = true;
        }
    }

    /// Adds the bytes in hexadecimal digits, where there was memory for them.
    pub(crate) fn add_bytes(&mut self, alloc: Global, bytes: Result<Vec<u8>, NoMemory>) {
        match bytes {
            Ok(bytes) => self.add_digits(alloc, bytes.as_slice()),
            Err(_) => self.is_short = true,
        }
    }

    /// Adds the bytes in hexadecimal digits.
    fn add_digits(&mut self, alloc: Global, bytes: &[u8]) {
        match hex::encode(alloc, bytes) {
            Ok(digits) => self.add(digits.as_str()),
            Err(_) => self.is_short = true,
        }
    }

    /// The bytes that the hexadecimal digits of a row stand for. Where they stand for none, it is told.
    pub(crate) fn bytes(&mut self, alloc: Global, digits: &str) -> Vec<u8> {
        match hex::decode(alloc, digits) {
            Ok(bytes) => return bytes,
            Err(FromHexError::OutOfMemory) => self.is_short = true,
            Err(_) => self.add("no bytes"),
        }
        Vec::new(alloc)
    }
}
