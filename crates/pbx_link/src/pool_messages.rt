// The messages of a pool, one by one.
ghost use Rattle.std.specs.Prelude.{◌≡◌, ◌<◌, [], Some, length, slice_get, MatchOption};
ghost use Rattle.std.specs.Iterator.{YieldsFirst, item_count};
ghost use Rattle.pbx_link_definitions.specs.Definitions.{messages};
ghost use Rattle.pbx_link.specs.Tables.{messages_from};

use crate::message::MessageDescriptor;
use crate::pool::DescriptorPool;
use pbx_link_tables::FileTable;
use pbx_shared::Shared;
use std::marker::Model;

/// The messages of a pool. Contracts see the list of those that are left.
#[derive(Drop)]
pub struct PoolMessages<'a> {
    pub(crate) pool: &'a DescriptorPool,
    pub(crate) file: usize,
    pub(crate) index: usize,
}

impl<'a> Model for PoolMessages<'a> {
    ghost use Rattle.std.specs.Prelude.{List};
    ghost use Rattle.std.specs.Coded.{coded_list};
    ghost use Rattle.pbx_desc_records.specs.contracts.message.DescriptorProto as proto;
    ghost use Rattle.pbx_desc_records.specs.declared.message.DescriptorProto.{DescriptorProto};
    ghost use Rattle.pbx_link_meaning.specs.Descriptors.{Described, described_code};
    ghost use Rattle.pbx_link.specs.Tables.{messages_from};

    ghost Value = { List (Described DescriptorProto) };

    ghost coded = { coded_list (described_code proto.the_row.coded) };

    ghost view = { λ it. messages_from it.pool.now it.file it.index };
}

/// Where a part of one kind stands: the file with its index, and the index in it.
#[derive(Drop)]
pub(crate) struct Standing<'a> {
    pub(crate) table: &'a Shared<FileTable>,
    pub(crate) file: usize,
    pub(crate) index: usize,
}

/// Where the message stands that is so many behind the first of a file. None behind the last.
fn standing_from<'a>(
    tables: &'a [Shared<FileTable>],
    file: usize,
    index: usize,
) -> Option<Standing<'a>>
    ensures { MatchOption result (messages_from tables.now file index ≡ []) (λ at.
        (messages_from tables.now file index ≡ messages_from tables.now at.file at.index)
        × (slice_get tables.now at.file ≡ Some at.table.now) × (at.index < length (messages at.table.now)) × (at.index < usize.MAX)) }
{
    let mut place = file;
    let mut rest = index;
    while place < tables.len() {
        let table = &tables[place];
        let count = table.as_ref().message_count();
        if rest < count {
            return Some(Standing {
                table,
                file: place,
                index: rest,
            });
        }
        rest -= count;
        place += 1;
    }
    None
}

impl Iterator for PoolMessages<'_> {
    type Item = MessageDescriptor;

    ghost next_gives = { YieldsFirst (λ it. it) };

    ghost remaining = { item_count (λ it. it) };

    fn next(&mut self) -> Option<MessageDescriptor> {
        let pool = self.pool;
        let at = standing_from(pool.tables(), self.file, self.index)?;
        self.file = at.file;
        self.index = at.index + 1;
        Some(MessageDescriptor {
            pool: pool.copy(),
            table: at.table.copy(),
            index: at.index,
        })
    }
}
