// What names are bound to (language guide: "Importing Definitions", "Packages and Name Resolution").
ghost use Rattle.std.specs.Prelude.{◌≡◌, IfOk};
ghost use Rattle.pbx_link_definitions.specs.Places.{IsAmong};
ghost use Rattle.pbx_link_rules_scope.specs.Rules.{has_bad_type_name, has_bad_extendee, has_no_extendee, has_no_input, has_no_output};
ghost use Rattle.pbx_link_rules_scope.specs.Rules.{unbound_in_fields as unbound_in_fields_of, unbound_in_extensions as unbound_in_extensions_of};
ghost use Rattle.pbx_link_rules_scope.specs.Rules.{unbound_in_methods as unbound_in_methods_of, unbound_names as unbound_names_of};

use crate::searches::{Place, Rule, broken_extension, broken_field, broken_method};
use pbx_desc_records::{FieldDescriptorProto, MethodDescriptorProto};
use pbx_link_definitions::FileParts;
use pbx_link_scope::{Bound, Visible, bound_if, extendee_of, is_message, type_of};
use pbx_wire::NoMemory;
use std::alloc::Global;

/// The type names of fields and extensions.
#[derive(Drop)]
struct TypeNames<'a, V> {
    seen: &'a V,
}

impl<'a, V: Visible> Rule<FieldDescriptorProto> for TypeNames<'a, V> {
    ghost breaks = { λ r. has_bad_type_name (V.files r.seen.now) };

    fn is_broken(
        &self,
        alloc: Global,
        scope: &str,
        item: &FieldDescriptorProto,
    ) -> Result<bool, NoMemory> {
        if item.type_name.is_none() {
            return Ok(false);
        }
        match type_of(alloc, self.seen, scope, item)? {
            Some(Bound::Message(_)) => Ok(item.kind == Some(14)),
            Some(Bound::Enum(_)) => Ok(item.kind == Some(11)),
            None => Ok(true),
        }
    }
}

/// The extendees of fields, which need none.
#[derive(Drop)]
struct FieldExtendees<'a, V> {
    seen: &'a V,
}

impl<'a, V: Visible> Rule<FieldDescriptorProto> for FieldExtendees<'a, V> {
    ghost breaks = { λ r. has_bad_extendee (V.files r.seen.now) };

    fn is_broken(
        &self,
        alloc: Global,
        scope: &str,
        item: &FieldDescriptorProto,
    ) -> Result<bool, NoMemory> {
        if item.extendee.is_none() {
            return Ok(false);
        }
        Ok(!is_message(&extendee_of(alloc, self.seen, scope, item)?))
    }
}

/// The extendees of extensions.
#[derive(Drop)]
struct Extendees<'a, V> {
    seen: &'a V,
}

impl<'a, V: Visible> Rule<FieldDescriptorProto> for Extendees<'a, V> {
    ghost breaks = { λ r. has_no_extendee (V.files r.seen.now) };

    fn is_broken(
        &self,
        alloc: Global,
        scope: &str,
        item: &FieldDescriptorProto,
    ) -> Result<bool, NoMemory> {
        Ok(!is_message(&extendee_of(alloc, self.seen, scope, item)?))
    }
}

/// The inputs of methods.
#[derive(Drop)]
struct Inputs<'a, V> {
    seen: &'a V,
}

impl<'a, V: Visible> Rule<MethodDescriptorProto> for Inputs<'a, V> {
    ghost breaks = { λ r. has_no_input (V.files r.seen.now) };

    fn is_broken(
        &self,
        alloc: Global,
        scope: &str,
        item: &MethodDescriptorProto,
    ) -> Result<bool, NoMemory> {
        Ok(!is_message(&bound_if(alloc, self.seen, scope, &item.input_type)?))
    }
}

/// The outputs of methods.
#[derive(Drop)]
struct Outputs<'a, V> {
    seen: &'a V,
}

impl<'a, V: Visible> Rule<MethodDescriptorProto> for Outputs<'a, V> {
    ghost breaks = { λ r. has_no_output (V.files r.seen.now) };

    fn is_broken(
        &self,
        alloc: Global,
        scope: &str,
        item: &MethodDescriptorProto,
    ) -> Result<bool, NoMemory> {
        Ok(!is_message(&bound_if(alloc, self.seen, scope, &item.output_type)?))
    }
}

fn unbound_in_fields<V: Visible>(
    alloc: Global,
    seen: &V,
    parts: &FileParts<'_>,
) -> Result<Option<Place>, NoMemory>
    ensures { IfOk result (IsAmong (unbound_in_fields_of (V.files seen.now) parts.now)) }
{
    match broken_field(alloc, &TypeNames { seen }, 6, parts.messages())? {
        Some(place) => Ok(Some(place)),
        None => broken_field(alloc, &FieldExtendees { seen }, 2, parts.messages()),
    }
}

fn unbound_in_extensions<V: Visible>(
    alloc: Global,
    seen: &V,
    parts: &FileParts<'_>,
) -> Result<Option<Place>, NoMemory>
    ensures { IfOk result (IsAmong (unbound_in_extensions_of (V.files seen.now) parts.now)) }
{
    match broken_extension(alloc, &TypeNames { seen }, 6, parts.extensions())? {
        Some(place) => Ok(Some(place)),
        None => broken_extension(alloc, &Extendees { seen }, 2, parts.extensions()),
    }
}

fn unbound_in_methods<V: Visible>(
    alloc: Global,
    seen: &V,
    parts: &FileParts<'_>,
) -> Result<Option<Place>, NoMemory>
    ensures { IfOk result (IsAmong (unbound_in_methods_of (V.files seen.now) parts.now)) }
{
    match broken_method(alloc, &Inputs { seen }, 2, parts.file())? {
        Some(place) => Ok(Some(place)),
        None => broken_method(alloc, &Outputs { seen }, 3, parts.file()),
    }
}

/// A place at which rule 7 (names that are bound to nothing) is broken, if there is one: the type name of a field or an extension is
/// bound to nothing among the files that are seen, or to a message where the type is that of an enum, or the other way round; or an
/// extendee, or the input or output of a method, is bound to no message or is missing, where only a field needs no extendee (language
/// guide: "Importing Definitions", "Packages and Name Resolution"). The only error is want of memory; an index above those of 31 bits is
/// refused likewise.
pub fn unbound_names<V: Visible>(
    alloc: Global,
    seen: &V,
    parts: &FileParts<'_>,
) -> Result<Option<Place>, NoMemory>
    ensures { IfOk result (IsAmong (unbound_names_of (V.files seen.now) parts.now)) }
{
    if let Some(place) = unbound_in_fields(alloc, seen, parts)? {
        return Ok(Some(place));
    }
    if let Some(place) = unbound_in_extensions(alloc, seen, parts)? {
        return Ok(Some(place));
    }
    unbound_in_methods(alloc, seen, parts)
}
