//! Passes over the items of a tree.

ghost use Rattle.std.specs.Prelude.{◌≡◌, ◌++◌, Ok, map, List as ListOf, OnOk, IfOk};
ghost use Rattle.std.specs.List.{flat_map};
ghost use Rattle.pbx_parse_tree.specs.declared.tree.Version.{Version as VersionOf};
ghost use Rattle.pbx_parse_translation.specs.Passes.{listed};

use pbx_parse_tree::{Separated, Version};
use pbx_wire::{List, NoMemory};
use std::alloc::Global;

/// What gives records of a sort, in a file of a version of the language.
pub(crate) trait Gives<R> {
    ghost given: { VersionOf → Self → ListOf R };

    /// Adds the records to the list.
    fn give(&self, alloc: Global, version: Version, records: &mut List<R>) -> Result<(), NoMemory>
        ensures { OnOk result (records.new ≡ records.old ++ given version self.now) };
}

/// What the items give, in their order.
pub(crate) fn all_given<T: Gives<R>, R: Drop>(
    alloc: Global,
    version: Version,
    items: &[T],
) -> Result<List<R>, NoMemory>
    ensures { IfOk result (λ records. records ≡ flat_map (T.given version) items.now) }
{
    let mut records = List::new(alloc);
    'each: for item in items {
        item.give(alloc, version, &mut records)?;
    }
    Ok(records)
}

/// Puts what was made in place of the other. Nothing that is owned lives where memory runs out.
pub(crate) fn put<T: Drop>(to: &mut T, made: Result<T, NoMemory>) -> Result<(), NoMemory>
    ensures { OnOk result (made ≡ Ok to.new) }
{
    match made {
        Ok(it) => {
            *to = it;
            Ok(())
        }
        Err(error) => Err(error),
    }
}

/// What becomes one record of a sort.
pub(crate) trait Becomes<R> {
    ghost record_of: { Self → R };

    fn record(&self, alloc: Global) -> Result<R, NoMemory>
        ensures { IfOk result (λ it. it ≡ record_of self.now) };
}

/// Adds the record of each.
pub(crate) fn add_each<T: Becomes<R>, R: Drop>(
    alloc: Global,
    items: &Separated<T>,
    records: &mut List<R>,
) -> Result<(), NoMemory>
    ensures { OnOk result (records.new ≡ records.old ++ map T.record_of (listed items.now)) }
{
    records.add(items.first.record(alloc)?)?;
    'each: for (_, item) in &items.more {
        records.add(item.record(alloc)?)?;
    }
    Ok(())
}
