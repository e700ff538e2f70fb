// The messages, enums and extensions of a file, and all that it defines.
ghost use Rattle.std.specs.Prelude.{◌≡◌, ◌++◌, ◌∷◌, [], IfOk, OnOk};
ghost use Rattle.std.specs.List.{flat_map};
ghost use Rattle.pbx_link_definitions.specs.Definitions.{parts as parts_of, messages_from, extensions_from, enums_in};
ghost use Rattle.pbx_link_definitions.specs.Definitions.{messages as messages_of, enums as enums_of, extensions as extensions_of};
ghost use Rattle.pbx_link_definitions.specs.Definitions.{definitions as definitions_of};

use crate::absent::text_or_empty;
use crate::definitions::{Definition, file_definitions};
use crate::parts::{Part, add_parts, name_in, place_copy, place_in};
use pbx_desc_records::{
    DescriptorProto, EnumDescriptorProto, FieldDescriptorProto, FileDescriptorProto,
};
use pbx_wire::{List, NoMemory, Text};
use std::alloc::Global;
use std::marker::Model;

/// Adds a message and those nested in it, and their extensions.
#[cycle(parts)]
fn add_message<'a>(
    alloc: Global,
    scope: &str,
    place: &[i32],
    index: usize,
    message: &'a DescriptorProto,
    parts: &mut List<Part<'a, DescriptorProto>>,
    extensions: &mut List<Part<'a, FieldDescriptorProto>>,
) -> Result<(), NoMemory>
    ensures messages { OnOk result (parts.new ≡ parts.old ++ messages_from
        (record { scope = scope.now; place = place.now; index = index; item = message.now })) }
    ensures extensions { OnOk result (extensions.new ≡ extensions.old ++ extensions_from
        (record { scope = scope.now; place = place.now; index = index; item = message.now })) }
{
    let part = Part::new(
        Text::from_str(alloc, scope)?,
        place_copy(alloc, place)?,
        index,
        message,
    );
    parts.add(part)?;
    let full = name_in(alloc, scope, text_or_empty(&message.name))?;
    let name = full.as_str();
    add_messages(
        alloc,
        name,
        place,
        3,
        &message.nested_type,
        parts,
        extensions,
    )?;
    add_parts(
        alloc,
        name,
        place,
        6,
        message.extension.as_slice(),
        extensions,
    )
}

#[cycle(parts)]
fn add_messages<'a>(
    alloc: Global,
    scope: &str,
    place: &[i32],
    number: u8,
    messages: &'a List<DescriptorProto>,
    parts: &mut List<Part<'a, DescriptorProto>>,
    extensions: &mut List<Part<'a, FieldDescriptorProto>>,
) -> Result<(), NoMemory>
    ensures messages { OnOk result (parts.new ≡ parts.old ++ flat_map messages_from (parts_of scope.now place.now number messages.now)) }
    ensures extensions { OnOk result (extensions.new ≡ extensions.old ++ flat_map extensions_from (parts_of scope.now place.now number messages.now)) }
{
    for (index, message) in messages.as_slice().iter().enumerate() {
        let there = place_in(alloc, place, number, index)?;
        add_message(
            alloc,
            scope,
            there.as_slice(),
            index,
            message,
            parts,
            extensions,
        )?;
    }
    Ok(())
}

/// Adds the enums that stand in the message's body.
fn add_enums_in<'a>(
    alloc: Global,
    message: &Part<'a, DescriptorProto>,
    enums: &mut List<Part<'a, EnumDescriptorProto>>,
) -> Result<(), NoMemory>
    ensures { OnOk result (enums.new ≡ enums.old ++ enums_in message.now) }
{
    let item = message.item();
    let name = name_in(alloc, message.scope(), text_or_empty(&item.name))?;
    add_parts(
        alloc,
        name.as_str(),
        message.place(),
        4,
        item.enum_type.as_slice(),
        enums,
    )
}

/// Adds the enums that stand in messages.
fn add_enums<'a>(
    alloc: Global,
    messages: &[Part<'a, DescriptorProto>],
    enums: &mut List<Part<'a, EnumDescriptorProto>>,
) -> Result<(), NoMemory>
    ensures { OnOk result (enums.new ≡ enums.old ++ flat_map enums_in messages.now) }
{
    for message in messages {
        add_enums_in(alloc, message, enums)?;
    }
    Ok(())
}

/// The record of a file with its messages, enums and extensions, nested ones included, and with all that it defines. Contracts see the
/// record.
#[derive(Drop)]
pub struct FileParts<'a> {
    file: &'a FileDescriptorProto,
    messages: List<Part<'a, DescriptorProto>>,
    enums: List<Part<'a, EnumDescriptorProto>>,
    extensions: List<Part<'a, FieldDescriptorProto>>,
    definitions: List<Definition>,
}

impl<'a> Model for FileParts<'a> {
    ghost use Rattle.std.specs.Prelude.{◌≡◌};
    ghost use Rattle.pbx_desc_records.specs.contracts.file.FileDescriptorProto as proto;
    ghost use Rattle.pbx_desc_records.specs.declared.file.FileDescriptorProto.{FileDescriptorProto};
    ghost use Rattle.pbx_link_definitions.specs.Definitions.{messages as messages_of, enums as enums_of, extensions as extensions_of};
    ghost use Rattle.pbx_link_definitions.specs.Definitions.{definitions as definitions_of};

    ghost Value = { FileDescriptorProto };

    ghost coded = { proto.the_row.coded };

    ghost view = { λ p. p.file.now };

    ghost invariant = { λ p. (p.messages ≡ messages_of p.file.now) × (p.enums ≡ enums_of p.file.now) × (p.extensions ≡ extensions_of p.file.now)
        × (p.definitions ≡ definitions_of p.file.now) };
}

impl<'a> FileParts<'a> {
    /// The parts of the file. The only error is want of memory.
    pub fn new(alloc: Global, file: &'a FileDescriptorProto) -> Result<FileParts<'a>, NoMemory>
        ensures { IfOk result (λ parts. parts ≡ file.now) }
    {
        let scope = text_or_empty(&file.package);
        let mut messages = List::new(alloc);
        let mut extensions = List::new(alloc);
        add_messages(
            alloc,
            scope,
            &[],
            4,
            &file.message_type,
            &mut messages,
            &mut extensions,
        )?;
        add_parts(
            alloc,
            scope,
            &[],
            7,
            file.extension.as_slice(),
            &mut extensions,
        )?;
        let mut enums = List::new(alloc);
        add_enums(alloc, messages.as_slice(), &mut enums)?;
        add_parts(alloc, scope, &[], 5, file.enum_type.as_slice(), &mut enums)?;
        let definitions = file_definitions(alloc, file)?;
        Ok(FileParts {
            file,
            messages,
            enums,
            extensions,
            definitions,
        })
    }

    /// The file's record.
    pub fn file(&self) -> &'a FileDescriptorProto
        ensures { result.now ≡ self.now }
    {
        self.file
    }

    /// Every message, nested ones and map entries included, each directly followed by those nested in it.
    pub fn messages(&self) -> &[Part<'a, DescriptorProto>]
        ensures { result.now ≡ messages_of self.now }
    {
        self.messages.as_slice()
    }

    /// Every enum: those in messages, in the order of `messages`, and then the file's own.
    pub fn enums(&self) -> &[Part<'a, EnumDescriptorProto>]
        ensures { result.now ≡ enums_of self.now }
    {
        self.enums.as_slice()
    }

    /// Every extension: those in a message's body behind those in the messages nested in it, and the file's own last.
    pub fn extensions(&self) -> &[Part<'a, FieldDescriptorProto>]
        ensures { result.now ≡ extensions_of self.now }
    {
        self.extensions.as_slice()
    }

    /// All that the file defines, in the order of places.
    pub fn definitions(&self) -> &[Definition]
        ensures { result.now ≡ definitions_of self.now }
    {
        self.definitions.as_slice()
    }
}
