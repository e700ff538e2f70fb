//! Where a file's record breaks a rule of linking by itself: rows of `pbx_link_rules_field` and `pbx_link_rules_record`.
//!
//! A row asks `breach` and the name of a rule, and its third field is the bytes of a `FileDescriptorProto` in hexadecimal
//! digits. The answer is the place at which the record breaks the rule, its numbers with points between them, or `none`. A
//! row that names no rule, or whose third field holds no record, is answered by a line that says so.
//!
//! What is wanted is made by checks/rule-rows.

use crate::rules::{Rule, breach, rule_named};
use crate::told::Told;
use pbx_desc::DecodeMessage;
use pbx_desc_records::FileDescriptorProto;
use pbx_link_definitions::FileParts;
use pbx_wire::{DecodeError, List, NoMemory};
use std::alloc::Global;
use test_rows::Row;

/// The place at which the record breaks the rule.
fn breach_of_record(
    alloc: Global,
    rule: Rule,
    file: &FileDescriptorProto,
) -> Result<Option<List<i32>>, NoMemory> {
    let Ok(parts) = FileParts::new(alloc, file) else {
        return Err(NoMemory);
    };
    breach(alloc, rule, &parts)
}

/// Tells the place, or that there is none.
fn tell_breach(told: &mut Told, found: &Result<Option<List<i32>>, NoMemory>) {
    match found {
        Ok(Some(place)) => told.add_place(place.as_slice()),
        Ok(None) => told.add("none"),
        Err(NoMemory) => told.run_short(),
    }
}

/// Tells where the record of these bytes breaks the rule.
fn tell_breach_of_bytes(alloc: Global, told: &mut Told, rule: Rule, bytes: &[u8]) {
    match FileDescriptorProto::decode(alloc, bytes) {
        Ok(file) => {
            let found = breach_of_record(alloc, rule, &file);
            drop(file);
            tell_breach(told, &found);
        }
        Err(DecodeError::NoMemory) => told.run_short(),
        Err(_) => told.add("no record"),
    }
}

/// Tells where the record of the row breaks the rule of this name.
pub(crate) fn answer(alloc: Global, told: &mut Told, row: &Row, word: &str) {
    let Some(rule) = rule_named(word) else {
        return told.add("no such word");
    };
    let bytes = told.bytes(alloc, row.text(0));
    tell_breach_of_bytes(alloc, told, rule, bytes.as_slice());
}
