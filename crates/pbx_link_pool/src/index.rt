// The index of a pool's files.
ghost use Rattle.std.specs.Prelude.{◌≡◌, [], ℕ, ℤ, List as ListOf, Option as OptionOf, IfOk, OnOk, OnErr};
ghost use Rattle.pbx_link_names.specs.Numbers.{is_there};
ghost use Rattle.pbx_link_names.specs.Packages.{IsSound};
ghost use Rattle.pbx_link_pool.specs.Packages.{IsMissingOf, HasPackage, IsAlikeBut, IsForgotten};
ghost use Rattle.pbx_link_pool.specs.Index.{all_items, new_of, HasAddedAll, AreAllAlikeBut, HasForgottenAll, IsIndexOf, GoesOnWith, GoesOn};

use crate::items::{extended_items, new_definition_items, new_file_items};
use crate::packages::{add_package, forget_package, missing_package};
use crate::places::{PlaceItems, Places};
use pbx_desc_records::FileDescriptorProto;
use pbx_link_definitions::FileParts;
use pbx_link_names::{Missing, NameMap, NumberedNames, PackageNames};
use pbx_wire::{List, NoMemory, Text};
use std::alloc::Global;

/// The files of a pool by their names, and what they define by full names.
#[derive(Drop)]
pub(crate) struct Index {
    pub(crate) file_names: NameMap<usize>,
    /// The index of the file, and whether names may be looked up in the definition.
    pub(crate) definitions: NameMap<(usize, bool)>,
    /// Packages and what their names begin with.
    pub(crate) packages: PackageNames,
    /// Messages that are extended, and the numbers of the extensions.
    pub(crate) extended: NumberedNames,
    pub(crate) places: Places,
}

/// What is to be added of one file, besides its package.
#[derive(Drop)]
pub(crate) struct Items {
    file_names: List<(Text, usize)>,
    definitions: List<(Text, (usize, bool))>,
    extended: List<(Text, i32)>,
    places: PlaceItems,
}

impl Index {
    /// The index of no file; takes no memory.
    pub(crate) fn new(alloc: Global) -> Index
        ensures { IsIndexOf result [] }
    {
        Index {
            file_names: NameMap::new(alloc),
            definitions: NameMap::new(alloc),
            packages: PackageNames::new(alloc),
            extended: NumberedNames::new(alloc),
            places: Places::new(alloc),
        }
    }

    /// What the file of these parts adds besides its package, where it has this index. The only error is want of memory.
    pub(crate) fn new_items(
        &self,
        alloc: Global,
        index: usize,
        parts: &FileParts<'_>,
    ) -> Result<Items, NoMemory>
        ensures { IfOk result (λ items. items ≡ new_of self.now (all_items index parts.now)) }
    {
        let file = parts.file();
        let file_names = new_file_items(alloc, &self.file_names, index, &file.name)?;
        let definitions = new_definition_items(
            alloc,
            &self.definitions,
            index,
            parts.definitions(),
        )?;
        let extended = extended_items(alloc, parts.extensions())?;
        let places = self.places.new_items(alloc, index, parts)?;
        Ok(Items {
            file_names,
            definitions,
            extended,
            places,
        })
    }

    /// Adds what is missing of the package, and the items. Where memory runs out, some are added, but no extension. The only error is want of
    /// memory.
    fn add_all(
        &mut self,
        alloc: Global,
        missing: Option<Missing<'_>>,
        items: &Items,
    ) -> Result<(), NoMemory>
        ensures added { OnOk result (HasAddedAll items.now self.old self.new) }
        ensures packaged { OnOk result ((«package» : OptionOf (ListOf ℕ)) → IsSound self.old.packages
            → IsMissingOf self.old.packages «package» missing.entry → HasPackage «package» self.old.packages self.new.packages) }
        ensures alike { AreAllAlikeBut items.now self.old self.new }
        ensures rest { IsAlikeBut missing.entry self.old.packages self.new.packages }
        ensures extended { OnErr result ((q : ListOf ℕ) (z : ℤ) → is_there q z self.new.extended ≡ is_there q z self.old.extended) }
    {
        add_package(alloc, &mut self.packages, missing)?;
        self.file_names.add_all(alloc, items.file_names.as_slice())?;
        self.definitions
            .add_all(alloc, items.definitions.as_slice())?;
        self.places.add_all(alloc, &items.places)?;
        self.extended.add_all(alloc, items.extended.as_slice())
    }

    /// Takes out what was added of the package of which this was missing, and what is under the names of the items; extensions stay.
    fn forget(&mut self, missing: Option<Missing<'_>>, items: &Items)
        ensures forgotten { HasForgottenAll items.now self.old self.new }
        ensures package { IsForgotten missing.entry self.old.packages self.new.packages }
    {
        forget_package(&mut self.packages, missing);
        self.file_names.forget(items.file_names.as_slice());
        self.definitions.forget(items.definitions.as_slice());
        self.places.forget(&items.places);
    }

    /// Adds the file whose items these are. A refused call changes nothing that is found. The only error is want of memory.
    pub(crate) fn add(
        &mut self,
        alloc: Global,
        file: &FileDescriptorProto,
        items: &Items,
    ) -> Result<(), NoMemory>
        ensures added { OnOk result ((index : ℕ) → items.now ≡ new_of self.old (all_items index file.now)
            → GoesOnWith index file.now self.old self.new) }
        ensures unchanged { OnErr result ((index : ℕ) → items.now ≡ new_of self.old (all_items index file.now) → GoesOn self.old self.new) }
    {
        let missing = missing_package(&self.packages, &file.package);
        if self.add_all(alloc, missing, items).is_err() {
            self.forget(missing, items);
            return Err(NoMemory);
        }
        Ok(())
    }
}
