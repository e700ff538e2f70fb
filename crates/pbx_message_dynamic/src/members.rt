// The members of oneofs that may have values.
ghost use Rattle.std.specs.Prelude.{◌≡◌, ℕ, List, map, IsTrue, IfOk, option_and_then};
ghost use Rattle.pbx_content.specs.Content.{fields as fields_in_content, with_fields};
ghost use Rattle.pbx_content.specs.Shape.{field_of, fields_of};
ghost use Rattle.pbx_content.specs.Sound.{has_one_member};
ghost use Rattle.pbx_content_codec.specs.View.{content_of, fields_in, entry_of};
ghost use Rattle.pbx_content_map.specs.Entries.{value_under};
ghost use Rattle.pbx_message_dynamic.specs.Members.{AreMembers, AreMembersIf, IsNoted, without_former};

use pbx_content::Schema;
use pbx_content_codec::{Contents, Held};
use pbx_content_map::NumberMap;
use pbx_wire::NoMemory;
use std::alloc::Global;

/// The oneof that the field of the number is a member of.
fn oneof_of(schema: &Schema, place: usize, number: u32) -> Option<u32>
    ensures { result ≡ option_and_then (λ field. field.oneof) (field_of number (fields_of schema.now place)) }
{
    match schema.field_of(place, number) {
        Some(field) => field.oneof,
        None => None,
    }
}

/// The members of oneofs that are among the fields.
fn members_in(
    alloc: Global,
    schema: &Schema,
    place: usize,
    fields: &[(u32, Held)],
) -> Result<NumberMap<u32>, NoMemory>
    requires { IsTrue (has_one_member (fields_of schema.now place) (fields_in (map entry_of fields.now))) }
    ensures { IfOk result (AreMembers (fields_of schema.now place) (fields_in (map entry_of fields.now))) }
{
    let mut members = NumberMap::new(alloc);
    for field in fields {
        if let Some(oneof) = oneof_of(schema, place, field.0) {
            members.put(oneof, field.0)?;
        }
    }
    Ok(members)
}

/// The members that are known, or else those that have values. What was known is taken out.
pub(crate) fn known_members(
    members: &mut Option<NumberMap<u32>>,
    alloc: Global,
    schema: &Schema,
    place: usize,
    tree: &Contents,
) -> Result<NumberMap<u32>, NoMemory>
    requires one { IsTrue (has_one_member (fields_of schema.now place) (fields_in_content (content_of tree.now))) }
    requires known { AreMembersIf (fields_of schema.now place) (fields_in_content (content_of tree.now)) members.old }
    ensures known { IfOk result (AreMembers (fields_of schema.now place) (fields_in_content (content_of tree.now))) }
    ensures left { AreMembersIf (fields_of schema.now place) (fields_in_content (content_of tree.now)) members.new }
{
    match members.take() {
        Some(known) => Ok(known),
        None => members_in(alloc, schema, place, tree.fields.as_slice()),
    }
}

/// The member that stands under the oneof.
pub(crate) fn member_under(members: &NumberMap<u32>, oneof: u32) -> Option<u32>
    ensures { result ≡ value_under oneof members.now }
{
    members.get(oneof).copied()
}

/// The members with this one under the oneof; where memory runs out they are no longer known.
pub(crate) fn noted(mut members: NumberMap<u32>, oneof: u32, number: u32) -> Option<NumberMap<u32>>
    ensures { IsNoted oneof number members result }
{
    match members.put(oneof, number) {
        Ok(()) => Some(members),
        Err(_refused) => None,
    }
}

/// Takes away the value of the member that may have had one before that of the number was put.
pub(crate) fn clear_former(tree: &mut Contents, former: Option<u32>, number: u32)
    ensures { content_of tree.new ≡ with_fields (content_of tree.old) (without_former former number (fields_in_content (content_of tree.old))) }
{
    match former {
        Some(former) if former != number => tree.clear(former),
        _ => {}
    }
}
