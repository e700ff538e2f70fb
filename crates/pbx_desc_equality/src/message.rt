ghost use Rattle.std.specs.Prelude.{◌≡◌, ◌↔◌, IsTrue};
ghost use Rattle.pbx_desc_equality.specs.Parts.{without_nested};

use crate::equals::Equals;
use pbx_desc_records::{DescriptorProto, ExtensionRange, ReservedRange};
use pbx_wire::List;

impl Equals for DescriptorProto {
    fn equals(&self, other: &DescriptorProto) -> bool {
        is_equal(self, other)
    }
}

/// Whether the messages are equal, but for the messages in them.
fn are_equal_apart(message: &DescriptorProto, other: &DescriptorProto) -> bool
    ensures { IsTrue result ↔ without_nested message.now ≡ without_nested other.now }
{
    message.name.equals(&other.name)
        && message.field.equals(&other.field)
        && message.enum_type.equals(&other.enum_type)
        && message.extension_range.equals(&other.extension_range)
        && message.extension.equals(&other.extension)
        && message.options.equals(&other.options)
        && message.oneof_decl.equals(&other.oneof_decl)
        && message.reserved_range.equals(&other.reserved_range)
        && message.reserved_name.equals(&other.reserved_name)
        && message.unknown.equals(&other.unknown)
}

#[cycle(equal)]
fn is_equal(message: &DescriptorProto, other: &DescriptorProto) -> bool
    ensures { IsTrue result ↔ message.now ≡ other.now }
{
    are_equal_apart(message, other) && are_equal(&message.nested_type, &other.nested_type)
}

#[cycle(equal)]
fn are_equal(messages: &List<DescriptorProto>, others: &List<DescriptorProto>) -> bool
    ensures { IsTrue result ↔ messages.now ≡ others.now }
{
    let others = others.as_slice();
    if messages.len() != others.len() {
        return false;
    }
    for (index, message) in messages.as_slice().iter().enumerate() {
        if !is_equal(message, &others[index]) {
            return false;
        }
    }
    true
}

impl Equals for ExtensionRange {
    fn equals(&self, other: &ExtensionRange) -> bool {
        self.start.equals(&other.start)
            && self.end.equals(&other.end)
            && self.options.equals(&other.options)
            && self.unknown.equals(&other.unknown)
    }
}

impl Equals for ReservedRange {
    fn equals(&self, other: &ReservedRange) -> bool {
        self.start.equals(&other.start)
            && self.end.equals(&other.end)
            && self.unknown.equals(&other.unknown)
    }
}
