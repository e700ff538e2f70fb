// Which field of a message a descriptor or a name means.
ghost use Rattle.std.specs.Prelude.{IfOk};
ghost use Rattle.pbx_message_dynamic.specs.Fields.{IsOwnField, IsOwnExtension, IsNamed};
ghost use Rattle.pbx_message_dynamic.specs.Targets.{IsTarget};

use pbx_link::{ExtensionDescriptor, FieldDescriptor, MessageDescriptor};
use pbx_message_laws::{fields_of_messages, messages_are_placed};
use pbx_wire::NoMemory;

/// The number of the field, where it is one of the message or of one that is the same.
pub(crate) fn field_number(desc: &MessageDescriptor, field: &FieldDescriptor) -> Option<u32>
    ensures { IsTarget desc.now (IsOwnField desc.now field.now) result }
{
    messages_are_placed();
    fields_of_messages();
    let parent = field.parent_message();
    let _pool = desc.parent_pool();
    let _other = parent.parent_pool();
    if desc.is_same(&parent) {
        Some(field.number())
    } else {
        None
    }
}

/// The number of the extension, where it extends the message or one that is the same.
pub(crate) fn extension_number(desc: &MessageDescriptor, field: &ExtensionDescriptor) -> Option<u32>
    ensures { IsTarget desc.now (IsOwnExtension desc.now field.now) result }
{
    messages_are_placed();
    fields_of_messages();
    let extended = field.containing_message();
    let _pool = desc.parent_pool();
    let _other = extended.parent_pool();
    if desc.is_same(&extended) {
        Some(field.number())
    } else {
        None
    }
}

/// The number of the field of the name, found among all of the message.
fn searched_number(desc: &MessageDescriptor, name: &str) -> Option<u32>
    ensures { IsTarget desc.now (IsNamed desc.now name.now) result }
{
    messages_are_placed();
    fields_of_messages();
    let _pool = desc.parent_pool();
    for field in desc.fields() {
        if field.name() == name {
            return Some(field.number());
        }
    }
    None
}

/// The number of the field of the name, which is looked up where the pool keeps the names. It takes no memory.
pub(crate) fn named_number(desc: &MessageDescriptor, name: &str) -> Option<u32>
    ensures { IsTarget desc.now (IsNamed desc.now name.now) result }
{
    fields_of_messages();
    let _pool = desc.parent_pool();
    match desc.kept_field_number(name) {
        Some(number) => number,
        None => searched_number(desc, name),
    }
}

/// The number of the field of the name, which is looked up. The only error is want of memory.
pub(crate) fn kept_number(desc: &MessageDescriptor, name: &str) -> Result<Option<u32>, NoMemory>
    ensures { IfOk result (IsTarget desc.now (IsNamed desc.now name.now)) }
{
    fields_of_messages();
    let _pool = desc.parent_pool();
    desc.field_number(name)
}
