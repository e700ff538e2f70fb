// Linked messages, each in its scope, with all that is nested in them.
ghost use Rattle.std.specs.Prelude.{◌≡◌, map, IfOk, OnOk};
ghost use Rattle.pbx_link_record.specs.Settled.{settled_message};
ghost use Rattle.pbx_link_record.specs.Linked.{linked_message as linked_message_of};
ghost use Rattle.pbx_link_record.specs.Parts.{own_parts as own_parts_of};

use crate::copying::copy_to;
use crate::fields::{linked_extensions, linked_fields};
use crate::settling::{put, settle_to};
use crate::unknown::{RecordType, settled_unknown};
use pbx_desc_records::{
    DescriptorProto, EnumDescriptorProto, ExtensionRange, FieldDescriptorProto,
    OneofDescriptorProto, Options, ReservedRange,
};
use pbx_link_definitions::{name_in, text_or_empty};
use pbx_link_scope::Visible;
use pbx_wire::{List, NoMemory, Recs, Text, Texts};
use std::alloc::Global;

/// What a message holds, the messages in it left out.
#[derive(Drop)]
struct OwnParts {
    name: Option<Text>,
    field: List<FieldDescriptorProto>,
    enum_type: List<EnumDescriptorProto>,
    extension_range: List<ExtensionRange>,
    extension: List<FieldDescriptorProto>,
    options: Option<Options>,
    oneof_decl: List<OneofDescriptorProto>,
    reserved_range: List<ReservedRange>,
    reserved_name: Texts,
    unknown: Recs,
}

impl OwnParts {
    /// Each absent; takes no memory.
    fn new(alloc: Global) -> OwnParts {
        OwnParts {
            name: None,
            field: List::new(alloc),
            enum_type: List::new(alloc),
            extension_range: List::new(alloc),
            extension: List::new(alloc),
            options: None,
            oneof_decl: List::new(alloc),
            reserved_range: List::new(alloc),
            reserved_name: Texts::new(alloc),
            unknown: Recs::new(alloc),
        }
    }

    /// Puts in the parts of the message of this full name, linked and settled.
    fn fill<V: Visible>(
        &mut self,
        alloc: Global,
        seen: &V,
        full_name: &str,
        message: &DescriptorProto,
    ) -> Result<(), NoMemory>
        ensures { OnOk result (self.new ≡ own_parts_of (V.files seen.now) full_name.now message.now) }
    {
        copy_to(&message.name, &mut self.name, alloc)?;
        put(
            &mut self.field,
            linked_fields(alloc, seen, full_name, &message.field),
        )?;
        settle_to(&message.enum_type, &mut self.enum_type, alloc)?;
        settle_to(&message.extension_range, &mut self.extension_range, alloc)?;
        put(
            &mut self.extension,
            linked_extensions(alloc, seen, full_name, &message.extension),
        )?;
        settle_to(&message.options, &mut self.options, alloc)?;
        settle_to(&message.oneof_decl, &mut self.oneof_decl, alloc)?;
        settle_to(&message.reserved_range, &mut self.reserved_range, alloc)?;
        copy_to(&message.reserved_name, &mut self.reserved_name, alloc)?;
        put(
            &mut self.unknown,
            settled_unknown(alloc, &message.unknown, RecordType::Message),
        )
    }
}

/// The parts of the message of this full name, linked and settled, the messages in it left out.
fn own_parts<V: Visible>(
    alloc: Global,
    seen: &V,
    full_name: &str,
    message: &DescriptorProto,
) -> Result<OwnParts, NoMemory>
    ensures { IfOk result (λ own. own ≡ own_parts_of (V.files seen.now) full_name.now message.now) }
{
    let mut own = OwnParts::new(alloc);
    own.fill(alloc, seen, full_name, message)?;
    Ok(own)
}

/// The message, linked in its scope and settled.
#[cycle(linking)]
fn linked_message<V: Visible>(
    alloc: Global,
    seen: &V,
    scope: &str,
    message: &DescriptorProto,
) -> Result<DescriptorProto, NoMemory>
    ensures { IfOk result (λ linked. linked ≡ settled_message (linked_message_of (V.files seen.now) scope.now message.now)) }
{
    let full = name_in(alloc, scope, text_or_empty(&message.name))?;
    let name = full.as_str();
    let nested_type = linked_messages(alloc, seen, name, &message.nested_type)?;
    let own = own_parts(alloc, seen, name, message)?;
    Ok(DescriptorProto {
        name: own.name,
        field: own.field,
        nested_type,
        enum_type: own.enum_type,
        extension_range: own.extension_range,
        extension: own.extension,
        options: own.options,
        oneof_decl: own.oneof_decl,
        reserved_range: own.reserved_range,
        reserved_name: own.reserved_name,
        unknown: own.unknown,
    })
}

/// The messages, linked in their scope and settled. The only error is want of memory.
#[cycle(linking)]
pub(crate) fn linked_messages<V: Visible>(
    alloc: Global,
    seen: &V,
    scope: &str,
    messages: &List<DescriptorProto>,
) -> Result<List<DescriptorProto>, NoMemory>
    ensures { IfOk result (λ linked. linked ≡ map settled_message (map (linked_message_of (V.files seen.now) scope.now) messages.now)) }
{
    let mut linked = List::with_capacity(alloc, messages.len())?;
    for message in messages.as_slice() {
        linked.add(linked_message(alloc, seen, scope, message)?)?;
    }
    Ok(linked)
}
