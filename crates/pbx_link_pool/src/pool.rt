// The linked records of files, with look-ups by names.
ghost use Rattle.std.specs.Prelude.{◌≡◌, [], true, find, option_copied, slice_get, IfOk, IfErr, OnOk, OnErr};
ghost use Rattle.std.specs.Str.{bytes_eq};
ghost use Rattle.pbx_link_definitions.specs.Definitions.{messages, enums, extensions, services, message_name, enum_name, field_name, service_name};
ghost use Rattle.pbx_link_scope.specs.Pooled.{HaveOwnNames, AreDistinct, by_file};
ghost use Rattle.pbx_link_rules.specs.Pool.{ArePooled, with_file};
ghost use Rattle.pbx_link_rules.specs.Breaches.{keeps_rules};
ghost use Rattle.pbx_link_pool.specs.Refused.{IsRefused};
ghost use Rattle.pbx_link_pool.specs.Places.{place_with_file, earlier as earlier_of};

use crate::index::Index;
use crate::linking::linked;
use crate::refusal::Refusal;
use crate::tables::{add_linked, copied_tables, table_index};
use pbx_desc_records::{DescriptorProto, EnumDescriptorProto, FileDescriptorProto};
use pbx_link_definitions::PartRef;
use pbx_link_rules::{pool_grows, pool_is_ordered};
use pbx_link_scope::{Bound, Pooled};
use pbx_link_tables::FileTable;
use pbx_shared::Shared;
use pbx_wire::{List, NoMemory};
use std::alloc::Global;
use std::marker::Model;

/// The linked records of files in the order in which they were added, each linked among those before it, with look-ups by names that take
/// the logarithm of the count of names. Contracts see the records.
#[derive(Drop)]
pub struct Pool {
    tables: List<Shared<FileTable>>,
    index: Index,
    alloc: Global,
}

impl Model for Pool {
    ghost use Rattle.std.specs.Prelude.{List, []};
    ghost use Rattle.std.specs.Coded.{coded_list};
    ghost use Rattle.pbx_desc_records.specs.contracts.file.FileDescriptorProto as proto;
    ghost use Rattle.pbx_desc_records.specs.declared.file.FileDescriptorProto.{FileDescriptorProto};
    ghost use Rattle.pbx_link_rules.specs.Pool.{ArePooled};
    ghost use Rattle.pbx_link_pool.specs.Index.{IsIndexOf};

    ghost Value = { List FileDescriptorProto };

    ghost coded = { coded_list proto.the_row.coded };

    ghost view = { λ p. p.tables };

    ghost invariant = { λ p. IsIndexOf p.index p.tables × ArePooled [] p.tables };
}

/// The message, where the enum is not in a file before it.
fn earlier<'a>(
    message: Option<(usize, PartRef<'a, DescriptorProto>)>,
    enumeration: Option<(usize, PartRef<'a, EnumDescriptorProto>)>,
) -> Option<(usize, Bound<'a>)>
    ensures { result ≡ earlier_of message.entry enumeration.entry }
{
    let Some((file, message)) = message else {
        return match enumeration {
            Some((file, found)) => Some((file, Bound::Enum(found))),
            None => None,
        };
    };
    let Some((other, found)) = enumeration else {
        return Some((file, Bound::Message(message)));
    };
    if other < file {
        return Some((other, Bound::Enum(found)));
    }
    Some((file, Bound::Message(message)))
}

impl Pool {
    /// No files; takes no memory.
    #[tactic(auto, unfolding(pbx_link_rules::specs::Pool::ArePooled))]
    pub fn new(alloc: Global) -> Pool
        ensures { result ≡ [] }
    {
        Pool {
            tables: List::new(alloc),
            index: Index::new(alloc),
            alloc,
        }
    }

    /// The files with their parts, in the order in which they were added.
    pub fn tables(&self) -> &[Shared<FileTable>]
        ensures same { result.now ≡ self.now }
        ensures pooled { ArePooled [] self.now }
    {
        self.tables.as_slice()
    }

    /// The file at the index, with its parts.
    fn table(&self, index: usize) -> Option<&FileTable>
        ensures { option_copied result ≡ slice_get self.now index }
    {
        match self.tables.as_slice().get(index) {
            Some(table) => Some(table.as_ref()),
            None => None,
        }
    }

    /// The index of the file of the first message of exactly this full name, and that of the message in the file.
    pub fn message_place(&self, name: &str) -> Option<(usize, usize)>
        ensures { result ≡ place_with_file messages message_name self.now name.now }
    {
        self.index.places.messages.get(name).copied()
    }

    /// The index of the file of the first enum of exactly this full name, and that of the enum in the file.
    pub fn enum_place(&self, name: &str) -> Option<(usize, usize)>
        ensures { result ≡ place_with_file enums enum_name self.now name.now }
    {
        self.index.places.enums.get(name).copied()
    }

    /// The index of the file of the first extension of exactly this full name, and that of the extension in the file.
    pub fn extension_place(&self, name: &str) -> Option<(usize, usize)>
        ensures { result ≡ place_with_file extensions field_name self.now name.now }
    {
        self.index.places.extensions.get(name).copied()
    }

    /// The index of the file of the first service of exactly this full name, and that of the service in the file.
    pub fn service_place(&self, name: &str) -> Option<(usize, usize)>
        ensures { result ≡ place_with_file services service_name self.now name.now }
    {
        self.index.places.services.get(name).copied()
    }

    /// The first message of exactly this full name, beside the index of its file.
    fn message_with_file(&self, name: &str) -> Option<(usize, PartRef<'_, DescriptorProto>)>
        ensures { result ≡ find (λ m. bytes_eq (message_name m.1) name.now) (by_file messages self.now) }
    {
        let Some((file, index)) = self.message_place(name) else {
            return None;
        };
        let Some(table) = self.table(file) else {
            return None;
        };
        match table.message(index) {
            Some(part) => Some((file, part)),
            None => None,
        }
    }

    /// The first enum of exactly this full name, beside the index of its file.
    fn enum_with_file(&self, name: &str) -> Option<(usize, PartRef<'_, EnumDescriptorProto>)>
        ensures { result ≡ find (λ e. bytes_eq (enum_name e.1) name.now) (by_file enums self.now) }
    {
        let Some((file, index)) = self.enum_place(name) else {
            return None;
        };
        let Some(table) = self.table(file) else {
            return None;
        };
        match table.enumeration(index) {
            Some(part) => Some((file, part)),
            None => None,
        }
    }

    /// Links the file's record among those that are there and adds the linked record, unless it breaks a rule of linking. A refused call
    /// changes nothing.
    pub fn add(&mut self, file: FileDescriptorProto) -> Result<(), Refusal>
        ensures added { OnOk result (self.new ≡ with_file self.old file) }
        ensures accepted { OnOk result (keeps_rules self.old file ≡ true) }
        ensures refused { IfErr result (IsRefused self.old file) }
        ensures unchanged { OnErr result (self.new ≡ self.old) }
    {
        let made = linked(self.alloc, self, file);
        pool_grows();
        match made {
            Ok(record) => match add_linked(self.alloc, &mut self.tables, &mut self.index, record) {
                Ok(()) => Ok(()),
                Err(_) => Err(Refusal::NoMemory),
            },
            Err(refusal) => Err(refusal),
        }
    }

    /// A pool of the same files, which both share. The only error is want of memory.
    pub fn copy(&self, alloc: Global) -> Result<Pool, NoMemory>
        ensures { IfOk result (λ copy. copy ≡ self.now) }
    {
        let tables = copied_tables(alloc, self.tables())?;
        let index = table_index(alloc, tables.as_slice())?;
        Ok(Pool {
            tables,
            index,
            alloc,
        })
    }

    /// Looks up what holds of the names of a pool: each file has one of its own, and no full name is defined twice.
    fn names_are_own(&self)
        ensures own { HaveOwnNames self.now }
        ensures distinct { AreDistinct self.now }
    {
        let _ = self.tables();
        pool_is_ordered();
    }
}

impl Pooled for Pool {
    ghost files = { λ p. p };

    fn file(&self, index: usize) -> Option<&FileDescriptorProto> {
        match self.table(index) {
            Some(table) => Some(table.file()),
            None => None,
        }
    }

    fn file_index(&self, name: &str) -> Option<usize> {
        self.names_are_own();
        self.index.file_names.get(name).copied()
    }

    fn type_with_file(&self, name: &str) -> Option<(usize, Bound<'_>)> {
        earlier(self.message_with_file(name), self.enum_with_file(name))
    }

    fn definition_with_file(&self, name: &str) -> Option<(usize, bool)> {
        self.names_are_own();
        self.index.definitions.get(name).copied()
    }

    fn is_package(&self, name: &str) -> bool {
        self.index.packages.contains(name)
    }

    fn is_extended(&self, extendee: &str, number: Option<i32>) -> bool {
        match number {
            Some(number) => self.index.extended.contains(extendee, number),
            None => false,
        }
    }
}
