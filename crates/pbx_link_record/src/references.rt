// Exact names in place of those that are bound in a scope.
ghost use Rattle.std.specs.Prelude.{◌≡◌, IfOk, OnOk};
ghost use Rattle.pbx_link_definitions.specs.Names.{dotted};
ghost use Rattle.pbx_link_scope.specs.Scope.{bound_name};
ghost use Rattle.pbx_link_record.specs.Linked.{exact, exact_by, type_by as type_by_of, linked_extension};

use pbx_desc_records::FieldDescriptorProto;
use pbx_link_scope::{Bound, Visible, bound_if};
use pbx_wire::{NoMemory, Text};
use std::alloc::Global;

/// The exact name of the type.
fn exact_name(alloc: Global, found: &Bound<'_>) -> Result<Text, NoMemory>
    ensures { IfOk result (λ name. name ≡ dotted (bound_name found.now)) }
{
    let full = found.full_name(alloc)?;
    Text::joined(alloc, &[".", full.as_str()])
}

/// Puts the exact name of what is found in place of the name; where nothing is found the name stays.
fn make_exact(
    alloc: Global,
    name: &mut Option<Text>,
    found: &Option<Bound<'_>>,
) -> Result<(), NoMemory>
    ensures { OnOk result (name.new ≡ exact_by name.old found.now) }
{
    if let Some(found) = found {
        *name = Some(exact_name(alloc, found)?);
    }
    Ok(())
}

/// Puts the exact name of what the name in the scope is bound to in its place. The only error is want of memory.
pub(crate) fn link_name<V: Visible>(
    alloc: Global,
    seen: &V,
    scope: &str,
    name: &mut Option<Text>,
) -> Result<(), NoMemory>
    ensures { OnOk result (name.new ≡ exact (V.files seen.now) scope.now name.old) }
{
    let found = bound_if(alloc, seen, scope, &*name)?;
    make_exact(alloc, name, &found)
}

/// The number of `FieldDescriptorProto.Type` for what is found, or else the one that there is.
fn type_by(kind: Option<i32>, found: &Option<Bound<'_>>) -> Option<i32>
    ensures { result ≡ type_by_of kind found.now }
{
    match found {
        Some(Bound::Message(_)) => Some(11),
        Some(Bound::Enum(_)) => Some(14),
        None => kind,
    }
}

/// Makes the names in the field or extension exact, and gives it the type of its name. The only error is want of memory.
pub(crate) fn link_extension<V: Visible>(
    alloc: Global,
    seen: &V,
    scope: &str,
    extension: &mut FieldDescriptorProto,
) -> Result<(), NoMemory>
    ensures { OnOk result (extension.new ≡ linked_extension (V.files seen.now) scope.now extension.old) }
{
    let found = bound_if(alloc, seen, scope, &extension.type_name)?;
    extension.kind = type_by(extension.kind, &found);
    make_exact(alloc, &mut extension.type_name, &found)?;
    link_name(alloc, seen, scope, &mut extension.extendee)
}
