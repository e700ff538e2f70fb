// Where the parts of a pool's files stand, by their full names.
ghost use Rattle.std.specs.Prelude.{◌≡◌, [], IfOk, OnOk};
ghost use Rattle.pbx_link_pool.specs.Index.{all_places, new_places, HaveAddedPlaces, ArePlacesAlikeBut, HaveForgottenPlaces, ArePlacesOf};

use crate::items::{new_part_items, new_service_items};
use pbx_link_definitions::{FileParts, text_or_empty};
use pbx_link_names::NameMap;
use pbx_wire::{List, NoMemory, Text};
use std::alloc::Global;

/// The index of the file of each part by its full name, and that of the part among those of its kind.
#[derive(Drop)]
pub(crate) struct Places {
    pub(crate) messages: NameMap<(usize, usize)>,
    pub(crate) enums: NameMap<(usize, usize)>,
    pub(crate) extensions: NameMap<(usize, usize)>,
    pub(crate) services: NameMap<(usize, usize)>,
}

/// Places that are to be added under names.
#[derive(Drop)]
pub(crate) struct PlaceItems {
    messages: List<(Text, (usize, usize))>,
    enums: List<(Text, (usize, usize))>,
    extensions: List<(Text, (usize, usize))>,
    services: List<(Text, (usize, usize))>,
}

impl Places {
    /// No places; takes no memory.
    pub(crate) fn new(alloc: Global) -> Places
        ensures { ArePlacesOf result [] }
    {
        Places {
            messages: NameMap::new(alloc),
            enums: NameMap::new(alloc),
            extensions: NameMap::new(alloc),
            services: NameMap::new(alloc),
        }
    }

    /// Those parts of a file under whose names nothing is. The only error is want of memory.
    pub(crate) fn new_items(
        &self,
        alloc: Global,
        index: usize,
        parts: &FileParts<'_>,
    ) -> Result<PlaceItems, NoMemory>
        ensures { IfOk result (λ items. items ≡ new_places self.now (all_places index parts.now)) }
    {
        let file = parts.file();
        let scope = text_or_empty(&file.package);
        let messages = new_part_items(alloc, &self.messages, index, parts.messages())?;
        let enums = new_part_items(alloc, &self.enums, index, parts.enums())?;
        let extensions = new_part_items(alloc, &self.extensions, index, parts.extensions())?;
        let services = new_service_items(
            alloc,
            &self.services,
            index,
            scope,
            file.service.as_slice(),
        )?;
        Ok(PlaceItems {
            messages,
            enums,
            extensions,
            services,
        })
    }

    /// Adds the items. Where memory runs out, some are added. The only error is want of memory.
    pub(crate) fn add_all(&mut self, alloc: Global, items: &PlaceItems) -> Result<(), NoMemory>
        ensures added { OnOk result (HaveAddedPlaces items.now self.old self.new) }
        ensures alike { ArePlacesAlikeBut items.now self.old self.new }
    {
        self.messages.add_all(alloc, items.messages.as_slice())?;
        self.enums.add_all(alloc, items.enums.as_slice())?;
        self.extensions.add_all(alloc, items.extensions.as_slice())?;
        self.services.add_all(alloc, items.services.as_slice())
    }

    /// Takes what is under the names of the items out.
    pub(crate) fn forget(&mut self, items: &PlaceItems)
        ensures { HaveForgottenPlaces items.now self.old self.new }
    {
        self.messages.forget(items.messages.as_slice());
        self.enums.forget(items.enums.as_slice());
        self.extensions.forget(items.extensions.as_slice());
        self.services.forget(items.services.as_slice());
    }
}
