// The files that a file imports, and those that public imports reach from these (Protocol Buffers "Language Guide": Importing Definitions).
ghost use Rattle.std.specs.Prelude.{◌≡◌, ◌∷◌, [], IfOk, OnOk, option_map};
ghost use Rattle.std.specs.Option.{option_to_list};
ghost use Rattle.pbx_link_scope.specs.Scope.{item_at};
ghost use Rattle.pbx_link_visible.specs.Imports.{AreVisible, imports_at, HasAdded, is_below as is_below_of};

use pbx_desc_records::FileDescriptorProto;
use pbx_link_scope::Pooled;
use pbx_wire::{List, NoMemory, Text};
use std::alloc::Global;
use std::collections::BTreeSet;

/// Whether the index is below the limit, if there is one.
fn is_below(limit: Option<usize>, index: usize) -> bool
    ensures { result ≡ is_below_of limit index }
{
    match limit {
        Some(limit) => index < limit,
        None => true,
    }
}

/// Adds the index of the file of this name, where it is below the limit.
fn add_file<P: Pooled>(
    pool: &P,
    name: &str,
    limit: Option<usize>,
    pending: &mut BTreeSet<usize>,
) -> Result<(), NoMemory>
    ensures { OnOk result (HasAdded (P.files pool.now) limit (name.now ∷ []) pending.old pending.new) }
{
    if let Some(index) = pool.file_index(name) {
        if is_below(limit, index) {
            pending.insert(index)?;
        }
    }
    Ok(())
}

/// Adds the indexes of the files of these names.
fn add_files<P: Pooled>(
    pool: &P,
    names: &[Text],
    pending: &mut BTreeSet<usize>,
) -> Result<(), NoMemory>
    ensures { OnOk result (HasAdded (P.files pool.now) None names.now pending.old pending.new) }
{
    for name in names {
        add_file(pool, name.as_str(), None, pending)?;
    }
    Ok(())
}

/// The name at the index in a file's imports, if it is one.
fn import_at(file: &FileDescriptorProto, index: i32) -> Option<&str>
    ensures { option_map (λ name. name.now) result ≡ item_at file.now.dependency index }
{
    let Ok(index) = usize::try_from(index) else {
        return None;
    };
    match file.dependency.as_slice().get(index) {
        Some(name) => Some(name.as_str()),
        None => None,
    }
}

/// Adds the index of the file that is imported at this index, where it is below the limit.
fn add_import<P: Pooled>(
    pool: &P,
    file: &FileDescriptorProto,
    index: i32,
    limit: usize,
    pending: &mut BTreeSet<usize>,
) -> Result<(), NoMemory>
    ensures { OnOk result (HasAdded (P.files pool.now) (Some limit) (option_to_list (item_at file.now.dependency index)) pending.old pending.new) }
{
    match import_at(file, index) {
        Some(name) => add_file(pool, name, Some(limit), pending),
        None => Ok(()),
    }
}

/// Adds the indexes below this one of the files that the file at the index imports publicly.
fn add_public_imports<P: Pooled>(
    pool: &P,
    index: usize,
    pending: &mut BTreeSet<usize>,
) -> Result<(), NoMemory>
    ensures { OnOk result (HasAdded (P.files pool.now) (Some index) (imports_at (P.files pool.now) index) pending.old pending.new) }
{
    let Some(file) = pool.file(index) else {
        return Ok(());
    };
    for import in file.public_dependency.as_slice() {
        add_import(pool, file, *import, index, pending)?;
    }
    Ok(())
}

/// The indexes of the files of the pool that the file sees besides itself, the greatest first: those that it imports, and those that public
/// imports reach from these. The only error is want of memory.
pub fn visible_files<P: Pooled>(
    alloc: Global,
    pool: &P,
    file: &FileDescriptorProto,
) -> Result<List<usize>, NoMemory>
    ensures { IfOk result (AreVisible (P.files pool.now) file.now) }
{
    let mut pending = BTreeSet::new(alloc);
    add_files(pool, file.dependency.as_slice(), &mut pending)?;
    let mut found = List::new(alloc);
    while let Some(index) = pending.pop_last() {
        found.add(index)?;
        add_public_imports(pool, index, &mut pending)?;
    }
    Ok(found)
}
