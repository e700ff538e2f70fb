// Options that are left uninterpreted.
ghost use Rattle.std.specs.Prelude.{◌≡◌, ℕ, [], List as ListOf, IfOk};
ghost use Rattle.std.specs.List.{flat_map, position};
ghost use Rattle.pbx_link_definitions.specs.Says.{is_uninterpreted as is_uninterpreted_of};
ghost use Rattle.pbx_link_definitions.specs.Definitions.{parts as parts_of};
ghost use Rattle.pbx_link_definitions.specs.Places.{IsAmong};
ghost use Rattle.pbx_desc_records.specs.declared.field.FieldDescriptorProto.{FieldDescriptorProto as FieldOf};
ghost use Rattle.pbx_link_rules_record.specs.OptionRules.{uninterpreted, uninterpreted_in_message, uninterpreted_in_enum, uninterpreted_in_service};
ghost use Rattle.pbx_link_rules_record.specs.OptionRules.{uninterpreted_options as uninterpreted_options_of};

use crate::options::is_uninterpreted;
use crate::places::place_of_field;
use pbx_desc_records::{
    DescriptorProto, EnumDescriptorProto, EnumValueDescriptorProto, ExtensionRange,
    FieldDescriptorProto, MethodDescriptorProto, OneofDescriptorProto, Options,
    ServiceDescriptorProto,
};
use pbx_link_definitions::{FileParts, Part, place_at, place_in};
use pbx_wire::{List, NoMemory};
use std::alloc::Global;

/// A record that has options.
trait HasOptions {
    ghost use Rattle.std.specs.Prelude.{Option as OptionOf};
    ghost use Rattle.pbx_desc_records.specs.declared.options.Options.{Options as OptionsOf};

    ghost options: { Self → OptionOf OptionsOf };

    fn options(&self) -> &Option<Options>
        ensures { result.now ≡ options self.now };
}

impl HasOptions for FieldDescriptorProto {
    ghost options = { λ x. x.options };

    fn options(&self) -> &Option<Options> {
        &self.options
    }
}

impl HasOptions for ExtensionRange {
    ghost options = { λ x. x.options };

    fn options(&self) -> &Option<Options> {
        &self.options
    }
}

impl HasOptions for OneofDescriptorProto {
    ghost options = { λ x. x.options };

    fn options(&self) -> &Option<Options> {
        &self.options
    }
}

impl HasOptions for EnumValueDescriptorProto {
    ghost options = { λ x. x.options };

    fn options(&self) -> &Option<Options> {
        &self.options
    }
}

impl HasOptions for MethodDescriptorProto {
    ghost options = { λ x. x.options };

    fn options(&self) -> &Option<Options> {
        &self.options
    }
}

/// The first record with an option that is not interpreted.
fn first_in<T: HasOptions>(items: &[T]) -> Option<usize>
    ensures { result ≡ position (λ x. is_uninterpreted_of (T.options x)) items.now }
{
    items
        .iter()
        .position(|item| is_uninterpreted(item.options()))
}

/// The options, the field of this number, of a record of a list, which is the field `list` of what stands at the place.
fn in_list<T: HasOptions>(
    alloc: Global,
    place: &[i32],
    list: u8,
    items: &[T],
    field: u8,
) -> Result<Option<List<i32>>, NoMemory>
    ensures { IfOk result (λ o. (scope : ListOf ℕ) → IsAmong (uninterpreted T.options field (parts_of scope place.now list items.now)) o) }
{
    match first_in(items) {
        Some(index) => Ok(Some(place_of_field(alloc, place, list, index, field)?)),
        None => Ok(None),
    }
}

fn in_message(
    alloc: Global,
    part: &Part<'_, DescriptorProto>,
) -> Result<Option<List<i32>>, NoMemory>
    ensures { IfOk result (IsAmong (uninterpreted_in_message part.now)) }
{
    let message = part.item();
    if is_uninterpreted(&message.options) {
        return Ok(Some(part.at(alloc, 7)?));
    }
    if let Some(place) = in_list(alloc, part.place(), 2, message.field.as_slice(), 8)? {
        return Ok(Some(place));
    }
    if let Some(place) = in_list(
        alloc,
        part.place(),
        5,
        message.extension_range.as_slice(),
        3,
    )? {
        return Ok(Some(place));
    }
    in_list(alloc, part.place(), 8, message.oneof_decl.as_slice(), 2)
}

fn in_enum(
    alloc: Global,
    part: &Part<'_, EnumDescriptorProto>,
) -> Result<Option<List<i32>>, NoMemory>
    ensures { IfOk result (IsAmong (uninterpreted_in_enum part.now)) }
{
    let record = part.item();
    if is_uninterpreted(&record.options) {
        return Ok(Some(part.at(alloc, 3)?));
    }
    in_list(alloc, part.place(), 2, record.value.as_slice(), 3)
}

fn in_service(
    alloc: Global,
    place: &[i32],
    service: &ServiceDescriptorProto,
) -> Result<Option<List<i32>>, NoMemory>
    ensures { IfOk result (λ o. (scope : ListOf ℕ) (index : ℕ)
        → IsAmong (uninterpreted_in_service (record { scope = scope; place = place.now; index = index; item = service.now })) o) }
{
    if is_uninterpreted(&service.options) {
        return Ok(Some(place_at(alloc, place, 3)?));
    }
    in_list(alloc, place, 2, service.method.as_slice(), 4)
}

fn in_messages(
    alloc: Global,
    messages: &[Part<'_, DescriptorProto>],
) -> Result<Option<List<i32>>, NoMemory>
    ensures { IfOk result (IsAmong (flat_map uninterpreted_in_message messages.now)) }
{
    for part in messages {
        if let Some(place) = in_message(alloc, part)? {
            return Ok(Some(place));
        }
    }
    Ok(None)
}

#[tactic(auto, using(crate::proofs::Walked::where_here, crate::proofs::Walked::where_next))]
fn in_extensions(
    alloc: Global,
    extensions: &[Part<'_, FieldDescriptorProto>],
) -> Result<Option<List<i32>>, NoMemory>
    ensures { IfOk result (IsAmong (uninterpreted (λ (x : FieldOf). x.options) 8 extensions.now)) }
{
    for part in extensions {
        if is_uninterpreted(&part.item().options) {
            return Ok(Some(part.at(alloc, 8)?));
        }
    }
    Ok(None)
}

fn in_enums(
    alloc: Global,
    enums: &[Part<'_, EnumDescriptorProto>],
) -> Result<Option<List<i32>>, NoMemory>
    ensures { IfOk result (IsAmong (flat_map uninterpreted_in_enum enums.now)) }
{
    for part in enums {
        if let Some(place) = in_enum(alloc, part)? {
            return Ok(Some(place));
        }
    }
    Ok(None)
}

fn in_services(
    alloc: Global,
    services: &[ServiceDescriptorProto],
) -> Result<Option<List<i32>>, NoMemory>
    ensures { IfOk result (λ o. (scope : ListOf ℕ) → IsAmong (flat_map uninterpreted_in_service (parts_of scope [] 6 services.now)) o) }
{
    for (index, service) in services.iter().enumerate() {
        let place = place_in(alloc, &[], 6, index)?;
        if let Some(place) = in_service(alloc, place.as_slice(), service)? {
            return Ok(Some(place));
        }
    }
    Ok(None)
}

/// Options of the file or of a part of it of which one is not interpreted, rule 14 (`descriptor.proto`: UninterpretedOption). The only error
/// is want of memory; an index above those of 31 bits is refused likewise.
pub fn uninterpreted_options(
    alloc: Global,
    parts: &FileParts<'_>,
) -> Result<Option<List<i32>>, NoMemory>
    ensures { IfOk result (IsAmong (uninterpreted_options_of parts.now)) }
{
    let file = parts.file();
    if is_uninterpreted(&file.options) {
        return Ok(Some(place_at(alloc, &[], 8)?));
    }
    if let Some(place) = in_messages(alloc, parts.messages())? {
        return Ok(Some(place));
    }
    if let Some(place) = in_extensions(alloc, parts.extensions())? {
        return Ok(Some(place));
    }
    if let Some(place) = in_enums(alloc, parts.enums())? {
        return Ok(Some(place));
    }
    in_services(alloc, file.service.as_slice())
}
