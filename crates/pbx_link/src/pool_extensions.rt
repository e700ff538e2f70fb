// The extensions of a pool, one by one.
ghost use Rattle.std.specs.Prelude.{◌≡◌, ◌<◌, [], Some, length, slice_get, MatchOption};
ghost use Rattle.std.specs.Iterator.{YieldsFirst, item_count};
ghost use Rattle.pbx_link_definitions.specs.Definitions.{extensions};
ghost use Rattle.pbx_link_meaning.specs.Descriptors.{all_extensions};
ghost use Rattle.pbx_link.specs.Tables.{extensions_from};

use crate::extension::ExtensionDescriptor;
use crate::pool::DescriptorPool;
use crate::pool_messages::Standing;
use pbx_link_tables::FileTable;
use pbx_shared::Shared;
use std::marker::Model;

/// The extensions of a pool. Contracts see the list of those that are left.
#[derive(Drop)]
pub struct PoolExtensions<'a> {
    pool: &'a DescriptorPool,
    file: usize,
    index: usize,
}

impl<'a> Model for PoolExtensions<'a> {
    ghost use Rattle.std.specs.Prelude.{List};
    ghost use Rattle.std.specs.Coded.{coded_list};
    ghost use Rattle.pbx_desc_records.specs.contracts.field.FieldDescriptorProto as proto;
    ghost use Rattle.pbx_desc_records.specs.declared.field.FieldDescriptorProto.{FieldDescriptorProto};
    ghost use Rattle.pbx_link_meaning.specs.Descriptors.{Described, described_code};
    ghost use Rattle.pbx_link.specs.Tables.{extensions_from};

    ghost Value = { List (Described FieldDescriptorProto) };

    ghost coded = { coded_list (described_code proto.the_row.coded) };

    ghost view = { λ it. extensions_from it.pool.now it.file it.index };
}

impl DescriptorPool {
    /// Every extension, file by file, in the order of places in each file.
    pub fn all_extensions(&self) -> PoolExtensions<'_>
        ensures { result ≡ all_extensions self.now }
    {
        PoolExtensions {
            pool: self,
            file: 0,
            index: 0,
        }
    }
}

/// Where the extension stands that is so many behind the first of a file. None behind the last.
fn extension_standing<'a>(
    tables: &'a [Shared<FileTable>],
    file: usize,
    index: usize,
) -> Option<Standing<'a>>
    ensures { MatchOption result (extensions_from tables.now file index ≡ []) (λ at.
        (extensions_from tables.now file index ≡ extensions_from tables.now at.file at.index)
        × (slice_get tables.now at.file ≡ Some at.table.now) × (at.index < length (extensions at.table.now)) × (at.index < usize.MAX)) }
{
    let mut place = file;
    let mut rest = index;
    while place < tables.len() {
        let table = &tables[place];
        let count = table.as_ref().extension_count();
        if rest < count {
            return Some(Standing {
                table,
                file: place,
                index: rest,
            });
        }
        rest -= count;
        place += 1;
    }
    None
}

impl Iterator for PoolExtensions<'_> {
    type Item = ExtensionDescriptor;

    ghost next_gives = { YieldsFirst (λ it. it) };

    ghost remaining = { item_count (λ it. it) };

    fn next(&mut self) -> Option<ExtensionDescriptor> {
        let pool = self.pool;
        let at = extension_standing(pool.tables(), self.file, self.index)?;
        self.file = at.file;
        self.index = at.index + 1;
        Some(ExtensionDescriptor {
            pool: pool.copy(),
            table: at.table.copy(),
            index: at.index,
        })
    }
}
