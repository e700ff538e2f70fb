// Names in a scope (Protocol Buffers "Language Guide": Packages and Name Resolution).
ghost use Rattle.std.specs.Prelude.{◌≡◌, IfOk};
ghost use Rattle.pbx_link_definitions.specs.Names.{first_part, outward};
ghost use Rattle.pbx_link_scope.specs.Scope.{first_type as first_type_of, type_in_first as type_in_first_of, type_from as type_from_of};
ghost use Rattle.pbx_link_scope.specs.Scope.{bound as bound_of, bound_if as bound_if_of};
ghost use Rattle.pbx_link_scope.specs.Scope.{outer as outer_of};

use crate::types::Bound;
use crate::visible::Visible;
use pbx_desc_records::FieldDescriptorProto;
use pbx_link_definitions::name_in;
use pbx_wire::{NoMemory, Text};
use std::alloc::Global;

/// The scope that holds this one, or the root.
fn outer(scope: &str) -> &str
    ensures { result.now ≡ outer_of scope.now }
{
    match scope.rfind('.') {
        Some(at) => &scope[..at],
        None => "",
    }
}

/// The type of the name in the innermost of the scopes that has one.
fn first_type<'a, V: Visible>(
    alloc: Global,
    seen: &'a V,
    scope: &str,
    name: &str,
) -> Result<Option<Bound<'a>>, NoMemory>
    ensures { IfOk result (λ found. found ≡ first_type_of (V.files seen.now) name.now (outward scope.now)) }
{
    let mut current = scope;
    while !current.is_empty() {
        let full = name_in(alloc, current, name)?;
        if let Some(found) = seen.type_named(full.as_str()) {
            return Ok(Some(found));
        }
        current = outer(current);
    }
    Ok(seen.type_named(name))
}

/// The type of the name in the innermost of the scopes where its first part is a message, enum, service or package.
fn type_in_first<'a, V: Visible>(
    alloc: Global,
    seen: &'a V,
    scope: &str,
    first: &str,
    name: &str,
) -> Result<Option<Bound<'a>>, NoMemory>
    requires { first.now ≡ first_part name.now }
    ensures { IfOk result (λ found. found ≡ type_in_first_of (V.files seen.now) name.now (outward scope.now)) }
{
    let mut current = scope;
    while !current.is_empty() {
        let owner = name_in(alloc, current, first)?;
        if seen.is_scope_name(owner.as_str()) {
            let full = name_in(alloc, current, name)?;
            return Ok(seen.type_named(full.as_str()));
        }
        current = outer(current);
    }
    if seen.is_scope_name(first) {
        return Ok(seen.type_named(name));
    }
    Ok(None)
}

/// What a name without a leading dot is bound to.
fn type_from<'a, V: Visible>(
    alloc: Global,
    seen: &'a V,
    scope: &str,
    name: &str,
) -> Result<Option<Bound<'a>>, NoMemory>
    ensures { IfOk result (λ found. found ≡ type_from_of (V.files seen.now) scope.now name.now) }
{
    match name.split_once('.') {
        Some((first, _)) => type_in_first(alloc, seen, scope, first, name),
        None => first_type(alloc, seen, scope, name),
    }
}

/// The message or enum that the name in the scope is bound to: looked up from the scope outward, where of a name of several parts the
/// innermost scope that knows the first part decides. A leading dot makes the name exact. The only error is want of memory.
pub fn bound<'a, V: Visible>(
    alloc: Global,
    seen: &'a V,
    scope: &str,
    name: &str,
) -> Result<Option<Bound<'a>>, NoMemory>
    ensures { IfOk result (λ found. found ≡ bound_of (V.files seen.now) scope.now name.now) }
{
    if name.is_empty() {
        return Ok(None);
    }
    match name.strip_prefix('.') {
        Some(exact) => Ok(seen.type_named(exact)),
        None => type_from(alloc, seen, scope, name),
    }
}

/// What the name in the scope is bound to, if there is a name. The only error is want of memory.
pub fn bound_if<'a, V: Visible>(
    alloc: Global,
    seen: &'a V,
    scope: &str,
    name: &Option<Text>,
) -> Result<Option<Bound<'a>>, NoMemory>
    ensures { IfOk result (λ found. found ≡ bound_if_of (V.files seen.now) scope.now name.now) }
{
    match name {
        Some(name) => bound(alloc, seen, scope, name.as_str()),
        None => Ok(None),
    }
}

/// The message or enum that is the type of the field or extension in the scope. The only error is want of memory.
pub fn type_of<'a, V: Visible>(
    alloc: Global,
    seen: &'a V,
    scope: &str,
    field: &FieldDescriptorProto,
) -> Result<Option<Bound<'a>>, NoMemory>
    ensures { IfOk result (λ found. found ≡ bound_if_of (V.files seen.now) scope.now field.now.type_name) }
{
    bound_if(alloc, seen, scope, &field.type_name)
}

/// What the extension in the scope extends. The only error is want of memory.
pub fn extendee_of<'a, V: Visible>(
    alloc: Global,
    seen: &'a V,
    scope: &str,
    field: &FieldDescriptorProto,
) -> Result<Option<Bound<'a>>, NoMemory>
    ensures { IfOk result (λ found. found ≡ bound_if_of (V.files seen.now) scope.now field.now.extendee) }
{
    bound_if(alloc, seen, scope, &field.extendee)
}
