//! The answer to a row.

use crate::stop::Stop;
use std::alloc::Global;
use std::str::from_utf8;

/// What was told so far.
#[derive(Drop)]
pub(crate) struct Told {
    text: String,
    // Whether memory ran out for a part of it.
    short: bool,
}

impl Told {
    /// Nothing.
    pub(crate) fn new(alloc: Global) -> Told {
        Told {
            text: String::new(alloc),
            short: false,
        }
    }

    /// All that was told, unless memory ran out.
    pub(crate) fn all(self) -> Result<String, Stop> {
        let Told { text, short } = self;
        if short {
            return Err(Stop::NoMemory);
        }
        Ok(text)
    }

    pub(crate) fn add(&mut self, words: &str) {
        if self.text.push_str(words).is_err() {
            self.short = true;
        }
    }

    pub(crate) fn add_number(&mut self, number: u64) {
        if write!(self.text, "{number}").is_err() {
            self.short = true;
        }
    }

    /// Adds the text in quotes, or that there is none.
    pub(crate) fn add_quoted(&mut self, words: Option<&str>) {
        match words {
            Some(words) => {
                self.add("'");
                self.add(words);
                self.add("'");
            }
            None => self.add("none"),
        }
    }

    /// Adds the bytes as a text in quotes, if they are one.
    pub(crate) fn add_bytes(&mut self, bytes: &[u8]) {
        self.add_quoted(from_utf8(bytes).ok());
    }

    /// Begins a further part of the answer.
    pub(crate) fn next(&mut self) {
        if !self.text.is_empty() {
            self.add(" | ");
        }
    }

    /// Adds a part of the answer.
    pub(crate) fn say(&mut self, words: &str) {
        self.next();
        self.add(words);
    }
}
