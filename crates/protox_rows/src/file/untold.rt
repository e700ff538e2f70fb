//! Resolvers that do not tell what they have.

ghost use Rattle.std.specs.Prelude.{true};
ghost use Rattle.protox_io.specs.Count.{counted};
ghost use Rattle.protox_file_sources.specs.Library.{unknown};

use crate::file::step::step_at;
use crate::file::told::Told;
use crate::file::{resolvers, walk};
use pbx_wire::{NoMemory, Text};
use protox_file_sources::{Error, File, FileResolver, MemoryResolver};
use std::alloc::Global;
use test_rows::Row;

/// A resolver that gives the same source to the first name, and nothing to a later one.
#[derive(Drop)]
struct Once {
    given: bool,
}

impl FileResolver for Once {
    ghost library = { λ _. unknown };

    ghost count = { λ _. counted 0 };

    fn resolve_path(&self, _alloc: Global, _path: &str) -> Result<Option<Text>, NoMemory> {
        Ok(None)
    }

    fn open_file(&mut self, alloc: Global, name: &str) -> Result<File, Error> {
        if self.given {
            return Err(Error::file_not_found(alloc, name));
        }
        self.given = true;
        File::from_source(alloc, name, "syntax = \"proto3\";")
    }

    fn spent(&self) -> bool {
        false
    }
}

/// A resolver that fails at each call.
#[derive(Drop)]
struct Never;

impl FileResolver for Never {
    ghost library = { λ _. unknown };

    ghost count = { λ _. record { faults = 0; spent = true } };

    fn resolve_path(&self, _alloc: Global, _path: &str) -> Result<Option<Text>, NoMemory> {
        Ok(None)
    }

    fn open_file(&mut self, alloc: Global, _name: &str) -> Result<File, Error> {
        Err(Error::from_io(alloc, "no answer"))
    }

    fn spent(&self) -> bool {
        true
    }
}

/// Files in memory, over which a script says what the first opens answer, a letter each: `f` is a fault, `m` is want of memory, and any
/// other letter what the files do. Behind its end the files answer, and then alone are paths resolved, as the files do.
#[derive(Drop)]
struct Scripted {
    files: MemoryResolver,
    script: Text,
    calls: usize,
}

/// The letter for the call of that number.
fn letter(script: &Text, call: usize) -> u8 {
    match script.as_str().as_bytes().get(call) {
        Some(letter) => *letter,
        None => b'.',
    }
}

impl FileResolver for Scripted {
    ghost library = { λ _. unknown };

    ghost count = { λ _. record { faults = 0; spent = true } };

    fn resolve_path(&self, alloc: Global, path: &str) -> Result<Option<Text>, NoMemory> {
        if self.calls < self.script.as_str().len() {
            return Ok(None);
        }
        self.files.resolve_path(alloc, path)
    }

    fn open_file(&mut self, alloc: Global, name: &str) -> Result<File, Error> {
        let letter = letter(&self.script, self.calls);
        self.calls = self.calls.saturating_add(1);
        match letter {
            b'f' => Err(Error::from_io(alloc, "no answer")),
            b'm' => Err(Error::from(NoMemory)),
            _ => self.files.open_file(alloc, name),
        }
    }

    fn spent(&self) -> bool {
        true
    }
}

/// The steps of a row over the files that they put, where the first step has the script.
pub(crate) fn walk_over_script(alloc: Global, row: &Row, told: &mut Told) {
    match Text::from_str(alloc, step_at(row, 0).text) {
        Ok(script) => {
            let files = resolvers::filled(alloc, row, told);
            let scripted = Scripted {
                files,
                script,
                calls: 0,
            };
            walk::over(alloc, row, scripted, told);
        }
        Err(_) => told.say("out of memory"),
    }
}

/// The steps of a row over a resolver that gives one file.
pub(crate) fn walk_over_one(alloc: Global, row: &Row, told: &mut Told) {
    walk::over(alloc, row, Once { given: false }, told);
}

/// The steps of a row over a resolver that gives none.
pub(crate) fn walk_over_none(alloc: Global, row: &Row, told: &mut Told) {
    walk::over(alloc, row, Never, told);
}
