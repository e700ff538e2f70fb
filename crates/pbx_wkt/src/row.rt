// Whether a field is as a row of the table declares it.
ghost use Rattle.std.specs.Prelude.{◌≡◌, map};
ghost use Rattle.std.specs.List.{list_all};
ghost use Rattle.pbx_wkt_types.specs.Rows.{row_field};
ghost use Rattle.pbx_wkt.specs.Told.{has_cardinality as has_cardinality_of, is_row as is_row_of, has_row as has_row_of};

use crate::kind::{has_key, has_sort};
use crate::oneof::has_oneof;
use pbx_content::Cardinality;
use pbx_link::{FieldDescriptor, MessageDescriptor};
use pbx_wkt_types::{FieldRow, has_member_presence};

/// Whether the field has as many values, of a map under keys of the kind.
fn has_cardinality(field: &FieldDescriptor, cardinality: Cardinality) -> bool
    ensures { result ≡ has_cardinality_of cardinality field.now }
{
    match cardinality {
        Cardinality::Singular => !field.is_map() && !field.is_list(),
        Cardinality::Repeated => field.is_list(),
        Cardinality::Map(key) => field.is_map() && has_key(field, key),
    }
}

/// Whether the field of the message is as the row declares it.
fn is_row(desc: &MessageDescriptor, row: &FieldRow, field: &FieldDescriptor) -> bool
    ensures { result ≡ is_row_of desc.now (row_field row.now) field.now }
{
    row.1 == field.name()
        && row.2 == field.json_name()
        && has_cardinality(field, row.4)
        && has_sort(field, row.3)
        && has_oneof(desc, row.5, field)
        && has_member_presence(row.5, field.supports_presence())
}

/// Whether the message has the field that the row declares.
#[tactic(auto, unfolding(crate::specs::Told::has_row))]
fn has_row(desc: &MessageDescriptor, row: &FieldRow) -> bool
    ensures { result ≡ has_row_of desc.now (row_field row.now) }
{
    match desc.get_field(row.0) {
        Some(field) => is_row(desc, row, &field),
        None => false,
    }
}

/// Whether the message has the field that each row declares.
pub(crate) fn has_each(desc: &MessageDescriptor, rows: &[FieldRow]) -> bool
    ensures { result ≡ list_all (has_row_of desc.now) (map row_field rows.now) }
{
    for row in rows {
        if !has_row(desc, row) {
            return false;
        }
    }
    true
}
