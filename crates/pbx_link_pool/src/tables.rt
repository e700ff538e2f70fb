// The tables of a pool's files, and the index that is made of them.
ghost use Rattle.std.specs.Prelude.{◌≡◌, ◌++◌, ◌∷◌, [], length, IfOk, OnOk, OnErr};
ghost use Rattle.pbx_link_tables.specs.Entries.{AreEntries};
ghost use Rattle.pbx_link_pool.specs.Index.{IsIndexOf, GoesOnWith, GoesOn, all_items, new_of};

use crate::index::{Index, Items};
use pbx_desc_records::FileDescriptorProto;
use pbx_link_definitions::FileParts;
use pbx_link_tables::{Entries, FileTable, file_entries};
use pbx_shared::Shared;
use pbx_wire::{List, NoMemory};
use std::alloc::Global;

/// Adds the file of this index. A refused call changes nothing that is found. The only error is want of memory.
fn index_file(
    alloc: Global,
    index: &mut Index,
    number: usize,
    file: &FileDescriptorProto,
) -> Result<(), NoMemory>
    ensures added { OnOk result (GoesOnWith number file.now index.old index.new) }
    ensures unchanged { OnErr result (GoesOn index.old index.new) }
{
    let parts = FileParts::new(alloc, file)?;
    let items = index.new_items(alloc, number, &parts)?;
    index.add(alloc, file, &items)
}

/// The parts of the file, and what the index is to have of it at this number. The only error is want of memory.
fn entries_and_items(
    alloc: Global,
    index: &Index,
    number: usize,
    file: &FileDescriptorProto,
) -> Result<(Entries, Items), NoMemory>
    ensures { IfOk result (λ made. AreEntries file.now made.0 × (made.1 ≡ new_of index.now (all_items number file.now))) }
{
    let parts = FileParts::new(alloc, file)?;
    let entries = file_entries(alloc, &parts)?;
    let items = index.new_items(alloc, number, &parts)?;
    Ok((entries, items))
}

/// The table of the file, shared. The only error is want of memory.
fn shared_table(
    alloc: Global,
    file: FileDescriptorProto,
    entries: Entries,
) -> Result<Shared<FileTable>, NoMemory>
    requires { AreEntries file entries }
    ensures { IfOk result (λ table. table ≡ file) }
{
    match Shared::new(alloc, FileTable::new(file, entries)) {
        Ok(shared) => Ok(shared),
        Err(_) => Err(NoMemory),
    }
}

/// Adds the table of a file, whose items for the index these are. A refused call changes nothing that is found. The only error is want of
/// memory.
fn add_table(
    alloc: Global,
    tables: &mut List<Shared<FileTable>>,
    index: &mut Index,
    table: &Shared<FileTable>,
    items: &Items,
) -> Result<(), NoMemory>
    requires { items.now ≡ new_of index.old (all_items (length tables.old) table.now) }
    ensures tables { OnOk result (tables.new ≡ tables.old ++ table.now ∷ []) }
    ensures index { OnOk result (GoesOnWith (length tables.old) table.now index.old index.new) }
    ensures same { OnErr result (tables.new ≡ tables.old) }
    ensures kept { OnErr result (GoesOn index.old index.new) }
{
    let number = tables.len();
    tables.add(table.copy())?;
    if index.add(alloc, table.as_ref().file(), items).is_err() {
        tables.remove(number);
        return Err(NoMemory);
    }
    Ok(())
}

/// Adds the linked record of a file. A refused call changes nothing that is found. The only error is want of memory.
pub(crate) fn add_linked(
    alloc: Global,
    tables: &mut List<Shared<FileTable>>,
    index: &mut Index,
    file: FileDescriptorProto,
) -> Result<(), NoMemory>
    ensures tables { OnOk result (tables.new ≡ tables.old ++ file ∷ []) }
    ensures index { OnOk result (GoesOnWith (length tables.old) file index.old index.new) }
    ensures same { OnErr result (tables.new ≡ tables.old) }
    ensures kept { OnErr result (GoesOn index.old index.new) }
{
    match entries_and_items(alloc, index, tables.len(), &file) {
        Ok((entries, items)) => {
            let table = shared_table(alloc, file, entries)?;
            add_table(alloc, tables, index, &table, &items)
        }
        Err(error) => {
            drop(file);
            Err(error)
        }
    }
}

/// The same tables. The only error is want of memory.
pub(crate) fn copied_tables(
    alloc: Global,
    tables: &[Shared<FileTable>],
) -> Result<List<Shared<FileTable>>, NoMemory>
    ensures { IfOk result (λ copy. copy ≡ tables.now) }
{
    let mut copy = List::with_capacity(alloc, tables.len())?;
    for table in tables {
        copy.add(table.copy())?;
    }
    Ok(copy)
}

/// The index of the files of these tables. The only error is want of memory.
pub(crate) fn table_index(alloc: Global, tables: &[Shared<FileTable>]) -> Result<Index, NoMemory>
    ensures { IfOk result (λ index. IsIndexOf index tables.now) }
{
    let mut index = Index::new(alloc);
    for (i, table) in tables.iter().enumerate() {
        index_file(alloc, &mut index, i, table.as_ref().file())?;
    }
    Ok(index)
}
