// The messages and enums of a pool by their places in the shape.
ghost use Rattle.std.specs.Prelude.{◌≡◌, IfOk, option_copied, slice_get};
ghost use Rattle.pbx_link_meaning.specs.Shapes.{message_place as message_place_of, enum_place as enum_place_of};
ghost use Rattle.pbx_link_meaning.specs.Shapes.{place_of_message as place_of_message_of, place_of_enum as place_of_enum_of};
ghost use Rattle.pbx_link_shapes.specs.Items.{message_item as message_item_of, item_at};

use crate::records::referred;
use crate::starts::Starts;
use pbx_desc_records::DescriptorProto;
use pbx_link_pool::Pool;
use pbx_link_tables::FileTable;
use pbx_wire::{NoMemory, Text};
use std::alloc::Global;
use std::marker::Model;

/// A pool with the places of its messages and enums in the shape. Contracts see the records of the pool.
#[derive(Drop)]
pub(crate) struct Types<'a> {
    pool: &'a Pool,
    messages: Starts,
    enums: Starts,
}

impl<'a> Model for Types<'a> {
    ghost use Rattle.std.specs.Prelude.{List, []};
    ghost use Rattle.std.specs.Coded.{coded_list};
    ghost use Rattle.pbx_desc_records.specs.contracts.file.FileDescriptorProto as proto;
    ghost use Rattle.pbx_desc_records.specs.declared.file.FileDescriptorProto.{FileDescriptorProto};
    ghost use Rattle.pbx_link_definitions.specs.Definitions.{messages as messages_of, enums as enums_of};
    ghost use Rattle.pbx_link_rules.specs.Pool.{ArePooled};
    ghost use Rattle.pbx_link_shapes.specs.Starts.{AreStarts, counts};

    ghost Value = { List FileDescriptorProto };

    ghost coded = { coded_list proto.the_row.coded };

    ghost view = { λ t. t.pool.now };

    ghost invariant = { λ t. AreStarts (counts messages_of t.pool.now) t.messages × AreStarts (counts enums_of t.pool.now) t.enums × ArePooled [] t.pool.now };
}

impl<'a> Types<'a> {
    /// The places of the pool's types. The only error is want of memory.
    pub(crate) fn new(alloc: Global, pool: &'a Pool) -> Result<Types<'a>, NoMemory>
        ensures { IfOk result (λ types. types ≡ pool.now) }
    {
        let mut messages = Starts::new(alloc);
        let mut enums = Starts::new(alloc);
        let tables = pool.tables();
        for table in tables {
            messages.add(table.as_ref().message_count())?;
            enums.add(table.as_ref().enum_count())?;
        }
        Ok(Types {
            pool,
            messages,
            enums,
        })
    }

    /// The pool.
    pub(crate) fn pool(&self) -> &'a Pool
        ensures { result.now ≡ self.now }
    {
        self.pool
    }

    /// The place of the message of exactly this full name.
    pub(crate) fn message_place(&self, name: &str) -> Option<usize>
        ensures { result ≡ message_place_of self.now name.now }
    {
        match self.pool.message_place(name) {
            Some((file, index)) => self.messages.place(file, index),
            None => None,
        }
    }

    /// The place of the enum of exactly this full name.
    fn enum_place(&self, name: &str) -> Option<usize>
        ensures { result ≡ enum_place_of self.now name.now }
    {
        match self.pool.enum_place(name) {
            Some((file, index)) => self.enums.place(file, index),
            None => None,
        }
    }

    /// The place of the message that a linked reference names, and that behind the last where there is none.
    pub(crate) fn place_of_message(&self, name: &Option<Text>) -> usize
        ensures { result ≡ place_of_message_of self.now name.now }
    {
        match referred(name) {
            Some(name) => self.message_place(name).unwrap_or(self.messages.count),
            None => self.messages.count,
        }
    }

    /// The place of the enum that a linked reference names, likewise.
    pub(crate) fn place_of_enum(&self, name: &Option<Text>) -> usize
        ensures { result ≡ place_of_enum_of self.now name.now }
    {
        match referred(name) {
            Some(name) => self.enum_place(name).unwrap_or(self.enums.count),
            None => self.enums.count,
        }
    }

    /// The file at the index, with its parts.
    fn table(&self, file: usize) -> Option<&'a FileTable>
        ensures { option_copied result ≡ slice_get self.now file }
    {
        match self.pool.tables().get(file) {
            Some(table) => Some(table.as_ref()),
            None => None,
        }
    }

    /// The record of the message at the index in the file of that one.
    #[tactic(auto, unfolding(crate::specs::Items::item_at))]
    fn item(&self, file: usize, index: usize) -> Option<&'a DescriptorProto>
        ensures { option_copied result ≡ item_at self.now file index }
    {
        let Some(table) = self.table(file) else {
            return None;
        };
        match table.message(index) {
            Some(part) => Some(part.item()),
            None => None,
        }
    }

    /// The record of the message that a linked reference names.
    pub(crate) fn message_item(&self, name: &Option<Text>) -> Option<&'a DescriptorProto>
        ensures { option_copied result ≡ message_item_of self.now name.now }
    {
        let Some(name) = referred(name) else {
            return None;
        };
        match self.pool.message_place(name) {
            Some((file, index)) => self.item(file, index),
            None => None,
        }
    }
}
