// Values put into trees.
ghost use Rattle.std.specs.Prelude.{◌≡◌, Some, OnOk, OnErr};
ghost use Rattle.pbx_content.specs.Content.{fields as fields_in_content, with_fields, with_option};
ghost use Rattle.pbx_content.specs.Shape.{field_of, fields_of};
ghost use Rattle.pbx_content.specs.Sound.{IsSound};
ghost use Rattle.pbx_content_codec.specs.View.{content_of, val_of};
ghost use Rattle.pbx_content_map.specs.Entries.{value_under};
ghost use Rattle.pbx_message_laws.specs.Fields.{keeps_default as keeps_default_of, set_value, value_kept};
ghost use Rattle.pbx_message_dynamic.specs.Members.{AreMembersIf, IsNoted, without_former};

use crate::members::{clear_former, known_members, member_under, noted};
use pbx_content::{Cardinality, FieldShape, Schema};
use pbx_content_codec::{Contents, Held, is_default};
use pbx_content_map::NumberMap;
use pbx_wire::NoMemory;
use std::alloc::Global;

/// Whether the field has its default as a value.
fn keeps_default(field: &FieldShape) -> bool
    ensures { result ≡ keeps_default_of field.now.presence field.now.cardinality }
{
    match field.cardinality {
        Cardinality::Singular => field.presence,
        Cardinality::Repeated => false,
        Cardinality::Map(_) => false,
    }
}

/// Puts the value, or none where it is a default that the field does not keep.
fn put_own(
    tree: &mut Contents,
    schema: &Schema,
    field: &FieldShape,
    held: Held,
) -> Result<(), NoMemory>
    ensures ok { OnOk result (content_of tree.new ≡ with_fields (content_of tree.old)
        (with_option field.now.number (value_kept schema.now field.now (val_of held)) (fields_in_content (content_of tree.old)))) }
    ensures err { OnErr result (content_of tree.new ≡ content_of tree.old) }
{
    if !keeps_default(field) && is_default(schema, field.kind, &held) {
        tree.clear(field.number);
        Ok(())
    } else {
        tree.put(field.number, held)
    }
}

/// Puts the value of a member of the oneof, takes away that of the member which may have had one, and notes the one that
/// has it now.
fn put_member(
    tree: &mut Contents,
    members: &mut Option<NumberMap<u32>>,
    known: NumberMap<u32>,
    schema: &Schema,
    field: &FieldShape,
    oneof: u32,
    held: Held,
) -> Result<(), NoMemory>
    ensures ok { OnOk result (content_of tree.new ≡ with_fields (content_of tree.old) (without_former (value_under oneof known) field.now.number
        (with_option field.now.number (value_kept schema.now field.now (val_of held)) (fields_in_content (content_of tree.old))))) }
    ensures noted { OnOk result (IsNoted oneof field.now.number known members.new) }
    ensures err { OnErr result (content_of tree.new ≡ content_of tree.old) }
    ensures same { OnErr result (members.new ≡ Some known) }
{
    let former = member_under(&known, oneof);
    match put_own(tree, schema, field, held) {
        Ok(()) => {
            clear_former(tree, former, field.number);
            *members = noted(known, oneof, field.number);
            Ok(())
        }
        Err(refused) => {
            *members = Some(known);
            Err(refused)
        }
    }
}

/// Puts the value of the field, and takes away those of the other members of its oneof, of which at most the known one
/// has a value. A refused call changes nothing.
pub(crate) fn put_value(
    tree: &mut Contents,
    members: &mut Option<NumberMap<u32>>,
    alloc: Global,
    schema: &Schema,
    place: usize,
    field: &FieldShape,
    held: Held,
) -> Result<(), NoMemory>
    requires sound { IsSound schema.now place (content_of tree.old) }
    requires own { field_of field.now.number (fields_of schema.now place) ≡ Some field.now }
    requires known { AreMembersIf (fields_of schema.now place) (fields_in_content (content_of tree.old)) members.old }
    ensures ok { OnOk result (content_of tree.new ≡ set_value schema.now (fields_of schema.now place) field.now (val_of held) (content_of tree.old)) }
    ensures err { OnErr result (content_of tree.new ≡ content_of tree.old) }
    ensures known { AreMembersIf (fields_of schema.now place) (fields_in_content (content_of tree.new)) members.new }
{
    let _proper = schema.shape();
    match field.oneof {
        Some(oneof) => match known_members(members, alloc, schema, place, tree) {
            Ok(known) => put_member(tree, members, known, schema, field, oneof, held),
            Err(refused) => Err(refused),
        },
        None => put_own(tree, schema, field, held),
    }
}
