// The extensions of a message.
ghost use Rattle.std.specs.Prelude.{◌≡◌, ◌∷◌, ◌++◌, [], ℕ, List as ListOf, ◌≢◌, find, MatchOption};
ghost use Rattle.std.specs.Str.{bytes_eq};
ghost use Rattle.std.specs.Iterator.{YieldsFirst, item_count};
ghost use Rattle.pbx_desc_records.specs.declared.field.FieldDescriptorProto.{FieldDescriptorProto as FieldOf};
ghost use Rattle.pbx_link_definitions.specs.Definitions.{field_name};
ghost use Rattle.pbx_link_meaning.specs.Descriptors.{Described, extensions_of_message, with_number, extension_with_json_name};
ghost use Rattle.pbx_link.specs.Tables.{extending};

use crate::by_name::is_dotted;
use crate::extension::ExtensionDescriptor;
use crate::message::{MessageDescriptor, is_number};
use crate::pool_extensions::PoolExtensions;
use std::marker::Model;

/// The extensions of a message in the order of its pool. Contracts see the list of those that are left.
#[derive(Drop)]
pub struct MessageExtensions<'a> {
    message: &'a MessageDescriptor,
    rest: PoolExtensions<'a>,
}

impl<'a> Model for MessageExtensions<'a> {
    ghost use Rattle.std.specs.Prelude.{List};
    ghost use Rattle.std.specs.Coded.{coded_list};
    ghost use Rattle.pbx_desc_records.specs.contracts.field.FieldDescriptorProto as proto;
    ghost use Rattle.pbx_desc_records.specs.declared.field.FieldDescriptorProto.{FieldDescriptorProto};
    ghost use Rattle.pbx_link_definitions.specs.Definitions.{message_name};
    ghost use Rattle.pbx_link_meaning.specs.Descriptors.{Described, described_code};
    ghost use Rattle.pbx_link.specs.Tables.{extending};

    ghost Value = { List (Described FieldDescriptorProto) };

    ghost coded = { coded_list (described_code proto.the_row.coded) };

    ghost view = { λ it. extending (message_name it.message.now.part) it.rest };
}

/// The next that extends the message of this full name.
fn next_extending(name: &str, rest: &mut PoolExtensions<'_>) -> Option<ExtensionDescriptor>
    ensures { YieldsFirst (extending name.now) rest.old result rest.new }
{
    while let Some(extension) = rest.next() {
        if is_dotted(&extension.record().extendee, name) {
            return Some(extension);
        }
    }
    None
}

impl Iterator for MessageExtensions<'_> {
    type Item = ExtensionDescriptor;

    ghost next_gives = { YieldsFirst (λ it. it) };

    ghost remaining = { item_count (λ it. it) };

    fn next(&mut self) -> Option<ExtensionDescriptor> {
        let message = self.message;
        next_extending(message.full_name(), &mut self.rest)
    }
}

/// What stands in brackets.
fn in_brackets(name: &str) -> Option<&str>
    ensures { MatchOption result ((q : ListOf ℕ) → name.now ≢ 91 ∷ q ++ 93 ∷ []) (λ q. name.now ≡ 91 ∷ q.now ++ 93 ∷ []) }
{
    match name.strip_prefix('[') {
        Some(rest) => rest.strip_suffix(']'),
        None => None,
    }
}

impl MessageDescriptor {
    /// The extensions of the pool that extend the message, in the order of the pool.
    pub fn extensions(&self) -> MessageExtensions<'_>
        ensures { result ≡ extensions_of_message self.now }
    {
        MessageExtensions {
            message: self,
            rest: self.pool().all_extensions(),
        }
    }

    /// The extension of a number.
    pub fn get_extension(&self, number: u32) -> Option<ExtensionDescriptor>
        ensures { result ≡ with_number (extensions_of_message self.now) number }
    {
        for extension in self.extensions() {
            if is_number(extension.record().number, number) {
                return Some(extension);
            }
        }
        None
    }

    /// The extension of this full name that extends the message.
    fn extension_named(&self, name: &str) -> Option<ExtensionDescriptor>
        ensures { result ≡ find (λ (x : Described FieldOf). bytes_eq (field_name x.part) name.now) (extensions_of_message self.now) }
    {
        let extension = self.pool().get_extension_by_name(name)?;
        if is_dotted(&extension.record().extendee, self.full_name()) {
            Some(extension)
        } else {
            None
        }
    }

    /// The extension of a JSON name, which is its full name in brackets.
    pub fn get_extension_by_json_name(&self, name: &str) -> Option<ExtensionDescriptor>
        ensures { result ≡ extension_with_json_name (extensions_of_message self.now) name.now }
    {
        match in_brackets(name) {
            Some(name) => self.extension_named(name),
            None => None,
        }
    }
}
