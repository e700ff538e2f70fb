// All that a file defines, in the order of places.
ghost use Rattle.std.specs.Prelude.{◌≡◌, ◌++◌, ◌∷◌, [], map, IfOk, OnOk};
ghost use Rattle.std.specs.List.{flat_map};
ghost use Rattle.pbx_link_definitions.specs.Definitions.{parts as parts_of, defined, is_scope as is_scope_of};
ghost use Rattle.pbx_link_definitions.specs.Definitions.{enum_definitions, service_definitions, definitions_from, definitions};

use crate::absent::text_or_empty;
use crate::named::Named;
use crate::parts::{name_in, place_copy, place_in};
use pbx_desc_records::{
    DescriptorProto, EnumDescriptorProto, FileDescriptorProto, ServiceDescriptorProto,
};
use pbx_wire::{List, NoMemory, Text};
use std::alloc::Global;
use std::marker::Model;

/// What a definition defines.
#[derive(Clone, Copy)]
pub enum Sort {
    /// A message.
    Message,
    /// A field of a message.
    Field,
    /// A oneof.
    Oneof,
    /// An enum.
    Enum,
    /// A value of an enum.
    Value,
    /// An extension.
    Extension,
    /// A service.
    Service,
    /// A method of a service.
    Method,
}

impl Sort {
    /// Whether names may be looked up in what is defined: a message, an enum or a service.
    pub fn is_scope(self) -> bool
        ensures { result ≡ is_scope_of self }
    {
        matches!(self, Sort::Message | Sort::Enum | Sort::Service)
    }
}

/// A definition of a file: the full name of what holds it, its own name, its sort and its place.
#[derive(Drop)]
pub struct Definition {
    scope: Text,
    name: Text,
    sort: Sort,
    place: List<i32>,
}

impl Model for Definition {
    ghost use Rattle.pbx_link_definitions.specs.Definitions.{Defined};

    ghost Value = { Defined };

    ghost view = { λ d. record { scope = d.scope; name = d.name; sort = d.sort; place = d.place } };
}

impl Definition {
    /// The full name of what holds it.
    pub fn scope(&self) -> &str
        ensures { result.now ≡ self.now.scope }
    {
        self.scope.as_str()
    }

    /// Its own name, which is empty where the record has none.
    pub fn name(&self) -> &str
        ensures { result.now ≡ self.now.name }
    {
        self.name.as_str()
    }

    /// What it defines.
    pub fn sort(&self) -> Sort
        ensures { result ≡ self.now.sort }
    {
        self.sort
    }

    /// The place of its record.
    pub fn place(&self) -> &[i32]
        ensures { result.now ≡ self.now.place }
    {
        self.place.as_slice()
    }
}

fn made_definition(
    alloc: Global,
    scope: &str,
    name: &str,
    sort: Sort,
    place: List<i32>,
) -> Result<Definition, NoMemory>
    ensures { IfOk result (λ d. d ≡ record { scope = scope.now; name = name.now; sort = sort; place = place }) }
{
    Ok(Definition {
        scope: Text::from_str(alloc, scope)?,
        name: Text::from_str(alloc, name)?,
        sort,
        place,
    })
}

/// Adds the items of a list.
#[tactic(auto, using(crate::proofs::Defined::mapped_more))]
fn add_items<T: Named>(
    alloc: Global,
    scope: &str,
    place: &[i32],
    number: u8,
    sort: Sort,
    items: &[T],
    table: &mut List<Definition>,
) -> Result<(), NoMemory>
    ensures { OnOk result (table.new ≡ table.old ++ map (defined sort T.name) (parts_of scope.now place.now number items.now)) }
{
    for (index, item) in items.iter().enumerate() {
        let there = place_in(alloc, place, number, index)?;
        table.add(made_definition(alloc, scope, item.own_name(), sort, there)?)?;
    }
    Ok(())
}

/// Adds an enum and its values.
fn add_enum(
    alloc: Global,
    scope: &str,
    place: &[i32],
    item: &EnumDescriptorProto,
    table: &mut List<Definition>,
) -> Result<(), NoMemory>
    ensures { OnOk result (table.new ≡ table.old ++ enum_definitions (record { scope = scope.now; place = place.now; index = 0; item = item.now })) }
{
    let own = text_or_empty(&item.name);
    table.add(made_definition(alloc, scope, own, Sort::Enum, place_copy(alloc, place)?)?)?;
    add_items(
        alloc,
        scope,
        place,
        2,
        Sort::Value,
        item.value.as_slice(),
        table,
    )
}

#[tactic(auto, using(crate::proofs::Listed::told_more))]
fn add_enums(
    alloc: Global,
    scope: &str,
    place: &[i32],
    number: u8,
    items: &[EnumDescriptorProto],
    table: &mut List<Definition>,
) -> Result<(), NoMemory>
    ensures { OnOk result (table.new ≡ table.old ++ flat_map enum_definitions (parts_of scope.now place.now number items.now)) }
{
    for (index, item) in items.iter().enumerate() {
        let there = place_in(alloc, place, number, index)?;
        add_enum(alloc, scope, there.as_slice(), item, table)?;
    }
    Ok(())
}

/// Adds a service and its methods.
fn add_service(
    alloc: Global,
    scope: &str,
    place: &[i32],
    item: &ServiceDescriptorProto,
    table: &mut List<Definition>,
) -> Result<(), NoMemory>
    ensures { OnOk result (table.new ≡ table.old ++ service_definitions (record { scope = scope.now; place = place.now; index = 0; item = item.now })) }
{
    let own = text_or_empty(&item.name);
    let name = name_in(alloc, scope, own)?;
    table.add(made_definition(alloc, scope, own, Sort::Service, place_copy(alloc, place)?)?)?;
    add_items(
        alloc,
        name.as_str(),
        place,
        2,
        Sort::Method,
        item.method.as_slice(),
        table,
    )
}

#[tactic(auto, using(crate::proofs::Listed::told_more))]
fn add_services(
    alloc: Global,
    scope: &str,
    place: &[i32],
    number: u8,
    items: &[ServiceDescriptorProto],
    table: &mut List<Definition>,
) -> Result<(), NoMemory>
    ensures { OnOk result (table.new ≡ table.old ++ flat_map service_definitions (parts_of scope.now place.now number items.now)) }
{
    for (index, item) in items.iter().enumerate() {
        let there = place_in(alloc, place, number, index)?;
        add_service(alloc, scope, there.as_slice(), item, table)?;
    }
    Ok(())
}

/// Adds a message, its fields, those nested in it, and what else stands in it.
#[cycle(names)]
#[tactic(auto, using(crate::proofs::Defined::message_defined))]
fn add_message(
    alloc: Global,
    scope: &str,
    place: &[i32],
    message: &DescriptorProto,
    table: &mut List<Definition>,
) -> Result<(), NoMemory>
    ensures { OnOk result (table.new ≡ table.old ++ definitions_from (record { scope = scope.now; place = place.now; index = 0; item = message.now })) }
{
    let own = text_or_empty(&message.name);
    let full = name_in(alloc, scope, own)?;
    let name = full.as_str();
    table.add(made_definition(alloc, scope, own, Sort::Message, place_copy(alloc, place)?)?)?;
    add_items(
        alloc,
        name,
        place,
        2,
        Sort::Field,
        message.field.as_slice(),
        table,
    )?;
    add_messages(alloc, name, place, 3, &message.nested_type, table)?;
    add_enums(alloc, name, place, 4, message.enum_type.as_slice(), table)?;
    add_items(
        alloc,
        name,
        place,
        6,
        Sort::Extension,
        message.extension.as_slice(),
        table,
    )?;
    add_items(
        alloc,
        name,
        place,
        8,
        Sort::Oneof,
        message.oneof_decl.as_slice(),
        table,
    )
}

#[cycle(names)]
#[tactic(auto, using(crate::proofs::Defined::defined_more))]
fn add_messages(
    alloc: Global,
    scope: &str,
    place: &[i32],
    number: u8,
    messages: &List<DescriptorProto>,
    table: &mut List<Definition>,
) -> Result<(), NoMemory>
    ensures { OnOk result (table.new ≡ table.old ++ flat_map definitions_from (parts_of scope.now place.now number messages.now)) }
{
    for (index, message) in messages.as_slice().iter().enumerate() {
        let there = place_in(alloc, place, number, index)?;
        add_message(alloc, scope, there.as_slice(), message, table)?;
    }
    Ok(())
}

/// All that a file defines, in the order of places. The only error is want of memory.
pub(crate) fn file_definitions(
    alloc: Global,
    file: &FileDescriptorProto,
) -> Result<List<Definition>, NoMemory>
    ensures { IfOk result (λ table. table ≡ definitions file.now) }
{
    let scope = text_or_empty(&file.package);
    let mut table = List::new(alloc);
    add_messages(alloc, scope, &[], 4, &file.message_type, &mut table)?;
    add_enums(alloc, scope, &[], 5, file.enum_type.as_slice(), &mut table)?;
    add_services(alloc, scope, &[], 6, file.service.as_slice(), &mut table)?;
    add_items(
        alloc,
        scope,
        &[],
        7,
        Sort::Extension,
        file.extension.as_slice(),
        &mut table,
    )?;
    Ok(table)
}
