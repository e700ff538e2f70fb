// Linked fields and extensions, each in its scope.
ghost use Rattle.std.specs.Prelude.{◌≡◌, map, IfOk, OnOk};
ghost use Rattle.pbx_link_record.specs.Settled.{settled_field};
ghost use Rattle.pbx_link_record.specs.Linked.{linked_field as linked_field_of, linked_extension as linked_extension_of};

use crate::json_names::json_name_or_default;
use crate::references::link_extension;
use crate::settling::Settle;
use pbx_desc_records::FieldDescriptorProto;
use pbx_link_scope::Visible;
use pbx_wire::{List, NoMemory};
use std::alloc::Global;

/// Makes the names in the field exact, and gives it the type of its name and a JSON name.
fn link_field<V: Visible>(
    alloc: Global,
    seen: &V,
    scope: &str,
    field: &mut FieldDescriptorProto,
) -> Result<(), NoMemory>
    ensures { OnOk result (field.new ≡ linked_field_of (V.files seen.now) scope.now field.old) }
{
    let json_name = json_name_or_default(alloc, field)?;
    link_extension(alloc, seen, scope, field)?;
    field.json_name = Some(json_name);
    Ok(())
}

/// The field, linked in its scope and settled.
#[tactic(auto, using(crate::proofs::Rolled::field_settled))]
fn linked_field<V: Visible>(
    alloc: Global,
    seen: &V,
    scope: &str,
    field: &FieldDescriptorProto,
) -> Result<FieldDescriptorProto, NoMemory>
    ensures { IfOk result (λ linked. linked ≡ settled_field (linked_field_of (V.files seen.now) scope.now field.now)) }
{
    let mut linked = field.settle(alloc)?;
    if let Err(error) = link_field(alloc, seen, scope, &mut linked) {
        drop(linked);
        return Err(error);
    }
    Ok(linked)
}

/// The extension, linked in the scope that it stands in and settled.
#[tactic(auto, using(crate::proofs::Rolled::extension_settled))]
fn linked_extension<V: Visible>(
    alloc: Global,
    seen: &V,
    scope: &str,
    extension: &FieldDescriptorProto,
) -> Result<FieldDescriptorProto, NoMemory>
    ensures { IfOk result (λ linked. linked ≡ settled_field (linked_extension_of (V.files seen.now) scope.now extension.now)) }
{
    let mut linked = extension.settle(alloc)?;
    if let Err(error) = link_extension(alloc, seen, scope, &mut linked) {
        drop(linked);
        return Err(error);
    }
    Ok(linked)
}

/// The fields, linked in their scope and settled. The only error is want of memory.
#[tactic(auto, using(crate::proofs::Rolled::linked_more))]
pub(crate) fn linked_fields<V: Visible>(
    alloc: Global,
    seen: &V,
    scope: &str,
    fields: &List<FieldDescriptorProto>,
) -> Result<List<FieldDescriptorProto>, NoMemory>
    ensures { IfOk result (λ linked. linked ≡ map settled_field (map (linked_field_of (V.files seen.now) scope.now) fields.now)) }
{
    let mut linked = List::with_capacity(alloc, fields.len())?;
    for field in fields.as_slice() {
        linked.add(linked_field(alloc, seen, scope, field)?)?;
    }
    Ok(linked)
}

/// The extensions, linked in the scope that they stand in and settled. The only error is want of memory.
#[tactic(auto, using(crate::proofs::Rolled::linked_more))]
pub(crate) fn linked_extensions<V: Visible>(
    alloc: Global,
    seen: &V,
    scope: &str,
    extensions: &List<FieldDescriptorProto>,
) -> Result<List<FieldDescriptorProto>, NoMemory>
    ensures { IfOk result (λ linked. linked ≡ map settled_field (map (linked_extension_of (V.files seen.now) scope.now) extensions.now)) }
{
    let mut linked = List::with_capacity(alloc, extensions.len())?;
    for extension in extensions.as_slice() {
        linked.add(linked_extension(alloc, seen, scope, extension)?)?;
    }
    Ok(linked)
}
