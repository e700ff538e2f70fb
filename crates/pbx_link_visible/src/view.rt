// What a file sees of a pool, as look-ups of full names.
ghost use Rattle.std.specs.Prelude.{◌≡◌, ℕ, IfOk};
ghost use Rattle.std.specs.Ordering.{nat_cmp};
ghost use Rattle.std.specs.BTreeSet.{contains};
ghost use Rattle.pbx_link_scope.specs.Pooled.{AreDistinct, type_with_file, definition_with_file, scope_with_file};
ghost use Rattle.pbx_link_scope.specs.Scope.{visible};
ghost use Rattle.pbx_link_visible.specs.Names.{is_among, if_seen, is_seen};

use crate::imports::visible_files;
use crate::own_names::{own_places, own_type, scope_names};
use crate::packages::package_names;
use pbx_link_definitions::{FileParts, Sort};
use pbx_link_names::PackageNames;
use pbx_link_scope::{Bound, Pooled, Visible};
use pbx_wire::NoMemory;
use std::alloc::Global;
use std::collections::{BTreeMap, BTreeSet};
use std::marker::Model;

/// The indexes as a set.
fn index_set(alloc: Global, indexes: &[usize]) -> Result<BTreeSet<usize>, NoMemory>
    ensures { IfOk result (λ set. (i : ℕ) → contains nat_cmp set i ≡ is_among indexes.now i) }
{
    let mut set = BTreeSet::new(alloc);
    for index in indexes {
        set.insert(*index)?;
    }
    Ok(set)
}

/// The message or enum of exactly this full name, where its file is at one of the indexes.
fn seen_type<'b, P: Pooled>(pool: &'b P, indexes: &BTreeSet<usize>, name: &str) -> Option<Bound<'b>>
    ensures { result ≡ if_seen (contains nat_cmp indexes.now) (type_with_file (P.files pool.now) name.now) }
{
    match pool.type_with_file(name) {
        Some((index, found)) => {
            if indexes.contains(&index) {
                return Some(found);
            }
            None
        }
        None => None,
    }
}

/// Whether a message, enum or service of exactly this full name is in a file at one of the indexes.
fn is_seen_scope<P: Pooled>(pool: &P, indexes: &BTreeSet<usize>, name: &str) -> bool
    ensures { result ≡ is_seen (contains nat_cmp indexes.now) (scope_with_file (definition_with_file (P.files pool.now) name.now)) }
{
    match pool.definition_with_file(name) {
        Some((index, is_scope)) => indexes.contains(&index) && is_scope,
        None => false,
    }
}

/// Looks a definition up for what each look-up says of the pool: no full name is defined twice in it.
fn no_name_twice<P: Pooled>(pool: &P)
    ensures { AreDistinct (P.files pool.now) }
{
    let _ = pool.definition_with_file("");
}

/// What a file sees of a pool: itself, the files that it imports, and what public imports reach from these. Contracts see these files.
/// A look-up asks the pool, and besides takes the logarithm of the count of the file's own names and of the files and packages seen.
#[derive(Drop)]
pub struct VisibleFiles<'a, P: Pooled> {
    pool: &'a P,
    parts: &'a FileParts<'a>,
    indexes: BTreeSet<usize>,
    places: BTreeMap<String, (Sort, usize)>,
    scopes: BTreeSet<String>,
    packages: PackageNames,
}

impl<'a, P: Pooled> Model for VisibleFiles<'a, P> {
    ghost use Rattle.std.specs.Prelude.{List};
    ghost use Rattle.std.specs.Coded.{coded_list};
    ghost use Rattle.pbx_desc_records.specs.contracts.file.FileDescriptorProto as proto;
    ghost use Rattle.pbx_desc_records.specs.declared.file.FileDescriptorProto.{FileDescriptorProto};
    ghost use Rattle.pbx_link_scope.specs.Scope.{visible};
    ghost use Rattle.pbx_link_visible.specs.Look.{FindsOwnNames, SeesFiles};

    ghost Value = { List FileDescriptorProto };

    ghost coded = { coded_list proto.the_row.coded };

    ghost view = { λ s. visible (P.files s.pool.now) s.parts.now };

    ghost invariant = { λ s. SeesFiles (P.files s.pool.now) s.parts.now s.indexes s.packages × FindsOwnNames s.parts.now s.places s.scopes };
}

impl<'a, P: Pooled> VisibleFiles<'a, P> {
    /// What the file of these parts sees of the pool. The only error is want of memory.
    pub fn new(
        alloc: Global,
        pool: &'a P,
        parts: &'a FileParts<'a>,
    ) -> Result<VisibleFiles<'a, P>, NoMemory>
        ensures { IfOk result (λ seen. seen ≡ visible (P.files pool.now) parts.now) }
    {
        let file = parts.file();
        let found = visible_files(alloc, pool, file)?;
        no_name_twice(pool);
        Ok(VisibleFiles {
            pool,
            parts,
            indexes: index_set(alloc, found.as_slice())?,
            places: own_places(alloc, parts)?,
            scopes: scope_names(alloc, parts)?,
            packages: package_names(alloc, pool, found.as_slice(), file)?,
        })
    }
}

impl<P: Pooled> Visible for VisibleFiles<'_, P> {
    ghost files = { λ s. s };

    fn type_named(&self, name: &str) -> Option<Bound<'_>> {
        if let Some(found) = own_type(self.parts, &self.places, name) {
            return Some(found);
        }
        seen_type(self.pool, &self.indexes, name)
    }

    fn is_scope_name(&self, name: &str) -> bool {
        if self.scopes.contains(name) {
            return true;
        }
        if is_seen_scope(self.pool, &self.indexes, name) {
            return true;
        }
        self.packages.contains(name)
    }
}
