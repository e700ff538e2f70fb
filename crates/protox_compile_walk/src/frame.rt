ghost use Rattle.std.specs.Prelude.{◌≡◌, ◌+◌, ◌<◌, length, slice_index_or, take, nat_lt, [], true, IfOk};
ghost use Rattle.std.specs.Str.{bytes_eq};
ghost use Rattle.pbx_link_definitions.specs.Names.{among};
ghost use Rattle.protox_compile_walk.specs.Places.{place_of_import};
ghost use Rattle.protox_compile_walk.specs.Walk.{imports_of, declared_name};
ghost use Rattle.protox_compile_walk.specs.Indexes.{AreIndexed, is_below};

use crate::indexes::Indexes;
use crate::place::place_of_import;
use pbx_wire::{NoMemory, Text};
use protox_file_sources::File;
use std::alloc::Global;
use std::marker::Model;
use std::mem::drop;

/// An open file, how many of its imports are done with, and the first index of each imported name.
#[derive(Drop)]
pub(crate) struct Frame {
    name: Text,
    file: File,
    next: usize,
    first: Indexes,
}

impl Model for Frame {
    ghost use Rattle.std.specs.Prelude.{◌≡◌, ◌≤◌, length, true};
    ghost use Rattle.std.specs.Coded.{codes};
    ghost use Rattle.std.specs.Str.{bytes_eq};
    ghost use Rattle.pbx_desc_records.specs.contracts.file.FileDescriptorProto as proto;
    ghost use Rattle.protox_compile_walk.specs.Walk.{Open, imports_of, declared_name};
    ghost use Rattle.protox_compile_walk.specs.Indexes.{AreIndexed};

    ghost Value = { Open };

    ghost coded = { Prim.hlevel (codes, proto.the_row.coded) };

    ghost view = { λ f. record { name = f.name; entry = f.file; next = f.next } };

    ghost invariant = { λ f. (f.next ≤ length (imports_of f.file)) × (bytes_eq (declared_name f.file) f.name ≡ true) × AreIndexed f.first (imports_of f.file) };
}

impl Frame {
    /// The file, with none of its imports done.
    pub(crate) fn new(alloc: Global, name: &str, file: File) -> Result<Frame, NoMemory>
        requires { bytes_eq (declared_name file) name.now ≡ true }
        ensures { IfOk result (λ frame. frame ≡ record { name = name.now; entry = file; next = 0 }) }
    {
        match named_indexes(alloc, name, &file) {
            Ok((name, first)) => Ok(Frame {
                name,
                file,
                next: 0,
                first,
            }),
            Err(NoMemory) => {
                drop(file);
                Err(NoMemory)
            }
        }
    }

    pub(crate) fn name(&self) -> &str
        ensures { result.now ≡ self.now.name }
    {
        self.name.as_str()
    }

    pub(crate) fn next(&self) -> usize
        ensures { result ≡ self.now.next }
    {
        self.next
    }

    fn imports(&self) -> &[Text]
        ensures { result.now ≡ imports_of self.now.entry }
    {
        self.file.file_descriptor_proto().dependency.as_slice()
    }

    pub(crate) fn has_next(&self) -> bool
        ensures { result ≡ nat_lt self.now.next (length (imports_of self.now.entry)) }
    {
        self.next < self.imports().len()
    }

    pub(crate) fn import(&self) -> &str
        requires { self.now.next < length (imports_of self.now.entry) }
        ensures { result.now ≡ slice_index_or (imports_of self.now.entry) self.now.next [] }
    {
        self.imports()[self.next].as_str()
    }

    /// The place of the import that comes next, if it is known.
    pub(crate) fn place(&self) -> Option<(u32, u32)>
        ensures { result ≡ place_of_import self.now.entry self.now.next }
    {
        place_of_import(&self.file, self.next)
    }

    /// Whether the name is imported at an earlier index.
    pub(crate) fn lists_before(&self, name: &str) -> bool
        ensures { result ≡ among (take self.now.next (imports_of self.now.entry)) name.now }
    {
        is_below(self.first.get(name), self.next)
    }

    pub(crate) fn advance(&mut self)
        requires { self.old.next < length (imports_of self.old.entry) }
        ensures { self.new ≡ record self.old { next = self.old.next + 1 } }
    {
        let _count = self.imports().len();
        self.next += 1;
    }

    pub(crate) fn into_parts(self) -> (Text, File)
        ensures name { result.0 ≡ self.name }
        ensures file { result.1 ≡ self.entry }
        ensures declared { bytes_eq (declared_name self.entry) self.name ≡ true }
    {
        let Frame {
            name,
            file,
            next: _,
            first: _,
        } = self;
        (name, file)
    }
}

/// Whether there is an index, and it is below this one.
fn is_below(index: Option<usize>, last: usize) -> bool
    ensures { result ≡ is_below last index }
{
    match index {
        Some(index) => index < last,
        None => false,
    }
}

/// A copy of the name, and the first index of each name that the file imports.
fn named_indexes(alloc: Global, name: &str, file: &File) -> Result<(Text, Indexes), NoMemory>
    ensures { IfOk result (λ made. (made.0 ≡ name.now) × AreIndexed made.1 (imports_of file.now)) }
{
    let name = Text::from_str(alloc, name)?;
    let first = first_indexes(alloc, file.file_descriptor_proto().dependency.as_slice())?;
    Ok((name, first))
}

/// The first index of each name.
fn first_indexes(alloc: Global, names: &[Text]) -> Result<Indexes, NoMemory>
    ensures { IfOk result (λ first. AreIndexed first names.now) }
{
    let mut first = Indexes::new(alloc);
    for index in 0..names.len() {
        first.push(alloc, names[index].as_str(), index)?;
    }
    Ok(first)
}
