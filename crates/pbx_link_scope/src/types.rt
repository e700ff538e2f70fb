// What a name may be bound to.
ghost use Rattle.std.specs.Prelude.{◌≡◌, IfOk};
ghost use Rattle.pbx_link_scope.specs.Scope.{bound_name, is_message as is_message_of};

use pbx_desc_records::{DescriptorProto, EnumDescriptorProto};
use pbx_link_definitions::{PartRef, name_in, text_or_empty};
use pbx_wire::{NoMemory, Text};
use std::alloc::Global;

/// What a name may be bound to.
#[derive(Drop)]
pub enum Bound<'a> {
    /// A message.
    Message(PartRef<'a, DescriptorProto>),
    /// An enum.
    Enum(PartRef<'a, EnumDescriptorProto>),
}

impl<'a> Bound<'a> {
    /// The full name. The only error is want of memory.
    pub fn full_name(&self, alloc: Global) -> Result<Text, NoMemory>
        ensures { IfOk result (λ name. name ≡ bound_name self.now) }
    {
        match self {
            Bound::Message(part) => {
                name_in(alloc, part.scope(), text_or_empty(&part.item().name))
            }
            Bound::Enum(part) => name_in(alloc, part.scope(), text_or_empty(&part.item().name)),
        }
    }
}

/// Whether it is a message.
pub fn is_message(found: &Option<Bound<'_>>) -> bool
    ensures { result ≡ is_message_of found.now }
{
    matches!(found, Some(Bound::Message(_)))
}
