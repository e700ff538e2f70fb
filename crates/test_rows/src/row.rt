//! A row and its fields.

use crate::escape::{escaped, unescaped};
use std::alloc::{AllocError, Global};
use std::str::from_utf8;

/// One row.
#[derive(Drop)]
pub struct Row {
    name: String,
    asked: String,
    fields: Vec<Vec<u8>>,
}

impl Row {
    /// Cuts a line into its name, what is asked, and its fields, each as the bytes that it stands for.
    pub fn read(alloc: Global, line: &str) -> Result<Row, AllocError> {
        let mut parts = line.split('\t');
        let name = String::from_str(alloc, parts.next().unwrap_or(""))?;
        let asked = String::from_str(alloc, parts.next().unwrap_or(""))?;
        let mut fields = Vec::new(alloc);
        for part in parts {
            fields.push(unescaped(alloc, part)?)?;
        }
        Ok(Row {
            name,
            asked,
            fields,
        })
    }

    pub fn name(&self) -> &str {
        self.name.as_str()
    }

    pub fn asked(&self) -> &str {
        self.asked.as_str()
    }

    /// The number of fields behind what is asked.
    pub fn len(&self) -> usize {
        self.fields.len()
    }

    pub fn is_empty(&self) -> bool {
        self.fields.is_empty()
    }

    /// A field behind what is asked, counted from 0; no bytes where there is none.
    pub fn bytes(&self, at: usize) -> &[u8] {
        match self.fields.get(at) {
            Some(field) => field.as_slice(),
            None => &[],
        }
    }

    /// The same as text; no text where it is not UTF-8.
    pub fn text(&self, at: usize) -> &str {
        from_utf8(self.bytes(at)).unwrap_or("")
    }

    /// The same as a decimal number; 0 where it is none.
    pub fn number(&self, at: usize) -> u64 {
        self.text(at).parse::<u64>().unwrap_or(0)
    }
}

/// The row's name, a tab, and the answer on one line.
pub fn answer_line(alloc: Global, row: &Row, answer: &str) -> Result<String, AllocError> {
    let mut line = String::from_str(alloc, row.name())?;
    line.push_str("\t")?;
    line.push_str(escaped(alloc, answer)?.as_str())?;
    Ok(line)
}
