// The services of a pool, one by one.
ghost use Rattle.std.specs.Prelude.{◌≡◌, ◌<◌, [], Some, length, slice_get, MatchOption};
ghost use Rattle.std.specs.Iterator.{YieldsFirst, item_count};
ghost use Rattle.pbx_link_definitions.specs.Definitions.{services};
ghost use Rattle.pbx_link_meaning.specs.Descriptors.{all_services};
ghost use Rattle.pbx_link.specs.Tables.{services_from};

use crate::pool::DescriptorPool;
use crate::pool_messages::Standing;
use crate::service::ServiceDescriptor;
use pbx_link_tables::FileTable;
use pbx_shared::Shared;
use std::marker::Model;

/// The services of a pool. Contracts see the list of those that are left.
#[derive(Drop)]
pub struct PoolServices<'a> {
    pool: &'a DescriptorPool,
    file: usize,
    index: usize,
}

impl<'a> Model for PoolServices<'a> {
    ghost use Rattle.std.specs.Prelude.{List};
    ghost use Rattle.std.specs.Coded.{coded_list};
    ghost use Rattle.pbx_desc_records.specs.contracts.service.ServiceDescriptorProto as proto;
    ghost use Rattle.pbx_desc_records.specs.declared.service.ServiceDescriptorProto.{ServiceDescriptorProto};
    ghost use Rattle.pbx_link_meaning.specs.Descriptors.{Described, described_code};
    ghost use Rattle.pbx_link.specs.Tables.{services_from};

    ghost Value = { List (Described ServiceDescriptorProto) };

    ghost coded = { coded_list (described_code proto.the_row.coded) };

    ghost view = { λ it. services_from it.pool.now it.file it.index };
}

impl DescriptorPool {
    /// Every service, file by file, in declared order.
    pub fn services(&self) -> PoolServices<'_>
        ensures { result ≡ all_services self.now }
    {
        PoolServices {
            pool: self,
            file: 0,
            index: 0,
        }
    }
}

/// Where the service stands that is so many behind the first of a file. None behind the last.
fn service_standing<'a>(
    tables: &'a [Shared<FileTable>],
    file: usize,
    index: usize,
) -> Option<Standing<'a>>
    ensures { MatchOption result (services_from tables.now file index ≡ []) (λ at.
        (services_from tables.now file index ≡ services_from tables.now at.file at.index)
        × (slice_get tables.now at.file ≡ Some at.table.now) × (at.index < length (services at.table.now)) × (at.index < usize.MAX)) }
{
    let mut place = file;
    let mut rest = index;
    while place < tables.len() {
        let table = &tables[place];
        let count = table.as_ref().service_count();
        if rest < count {
            return Some(Standing {
                table,
                file: place,
                index: rest,
            });
        }
        rest -= count;
        place += 1;
    }
    None
}

impl Iterator for PoolServices<'_> {
    type Item = ServiceDescriptor;

    ghost next_gives = { YieldsFirst (λ it. it) };

    ghost remaining = { item_count (λ it. it) };

    fn next(&mut self) -> Option<ServiceDescriptor> {
        let pool = self.pool;
        let at = service_standing(pool.tables(), self.file, self.index)?;
        self.file = at.file;
        self.index = at.index + 1;
        Some(ServiceDescriptor {
            pool: pool.copy(),
            table: at.table.copy(),
            index: at.index,
        })
    }
}
