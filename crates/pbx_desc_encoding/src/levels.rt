// How many levels a record has at most, told without its content: nearly no record has groups, so that messages in
// messages are nearly all that nests.
ghost use Rattle.std.specs.Prelude.{◌≡◌, ◌≤◌, ◌+◌, ℕ, IsTrue};
ghost use Rattle.pbx_wire.specs.Text.{depth_of};
ghost use Rattle.pbx_desc_encoding.specs.Levels.{below, options_levels, extension_range_levels, reserved_range_levels, field_levels, oneof_levels};
ghost use Rattle.pbx_desc_encoding.specs.Levels.{enum_reserved_range_levels, enum_value_levels, enum_levels, method_levels, service_levels, location_levels};
ghost use Rattle.pbx_desc_encoding.specs.Levels.{source_code_info_levels, message_levels, file_levels, below_one};
ghost use Rattle.pbx_desc_records.specs.declared.message.DescriptorProto.{out-DescriptorProto};

use pbx_desc_records::{
    DescriptorProto, EnumDescriptorProto, EnumReservedRange, EnumValueDescriptorProto,
    ExtensionRange, FieldDescriptorProto, FileDescriptorProto, Location, MethodDescriptorProto,
    OneofDescriptorProto, Options, ReservedRange, ServiceDescriptorProto, SourceCodeInfo,
};
use pbx_wire::{List, Rec, Recs};

/// Whether no record is a group.
fn are_flat(recs: &Recs) -> bool
    ensures { IsTrue result → depth_of recs.now ≡ 0 }
{
    for rec in recs.as_slice() {
        if let Rec::Group(_, _) = rec {
            return false;
        }
    }
    true
}

/// Whether the options have no group.
fn options_are_flat(options: &Option<Options>) -> bool
    ensures { IsTrue result → options_levels options.now ≤ 1 }
{
    match options {
        Some(options) => are_flat(&options.recs),
        None => true,
    }
}

/// A record with at most so many levels, where it has no group.
trait Flat {
    ghost use Rattle.std.specs.Prelude.{ℕ, ◌≤◌, IsTrue};

    /// The levels below the record.
    ghost levels: { Self → ℕ };

    /// The most that there are without groups.
    ghost MOST: { ℕ };

    fn is_flat(&self) -> bool
        ensures { IsTrue result → levels self.now ≤ MOST };
}

/// Whether no record has a group.
fn all_flat<R: Flat>(records: &List<R>) -> bool
    ensures { IsTrue result → below R.levels records.now ≤ R.MOST + 1 }
{
    for record in records.as_slice() {
        if !record.is_flat() {
            return false;
        }
    }
    true
}

impl Flat for ExtensionRange {
    ghost levels = { extension_range_levels };

    ghost MOST = { 1 };

    fn is_flat(&self) -> bool {
        options_are_flat(&self.options) && are_flat(&self.unknown)
    }
}

impl Flat for ReservedRange {
    ghost levels = { reserved_range_levels };

    ghost MOST = { 0 };

    fn is_flat(&self) -> bool {
        are_flat(&self.unknown)
    }
}

impl Flat for FieldDescriptorProto {
    ghost levels = { field_levels };

    ghost MOST = { 1 };

    fn is_flat(&self) -> bool {
        options_are_flat(&self.options) && are_flat(&self.unknown)
    }
}

impl Flat for OneofDescriptorProto {
    ghost levels = { oneof_levels };

    ghost MOST = { 1 };

    fn is_flat(&self) -> bool {
        options_are_flat(&self.options) && are_flat(&self.unknown)
    }
}

impl Flat for EnumReservedRange {
    ghost levels = { enum_reserved_range_levels };

    ghost MOST = { 0 };

    fn is_flat(&self) -> bool {
        are_flat(&self.unknown)
    }
}

impl Flat for EnumValueDescriptorProto {
    ghost levels = { enum_value_levels };

    ghost MOST = { 1 };

    fn is_flat(&self) -> bool {
        options_are_flat(&self.options) && are_flat(&self.unknown)
    }
}

impl Flat for EnumDescriptorProto {
    ghost levels = { enum_levels };

    ghost MOST = { 2 };

    fn is_flat(&self) -> bool {
        all_flat(&self.value)
            && options_are_flat(&self.options)
            && all_flat(&self.reserved_range)
            && are_flat(&self.unknown)
    }
}

impl Flat for MethodDescriptorProto {
    ghost levels = { method_levels };

    ghost MOST = { 1 };

    fn is_flat(&self) -> bool {
        options_are_flat(&self.options) && are_flat(&self.unknown)
    }
}

impl Flat for ServiceDescriptorProto {
    ghost levels = { service_levels };

    ghost MOST = { 2 };

    fn is_flat(&self) -> bool {
        all_flat(&self.method) && options_are_flat(&self.options) && are_flat(&self.unknown)
    }
}

impl Flat for Location {
    ghost levels = { location_levels };

    ghost MOST = { 0 };

    fn is_flat(&self) -> bool {
        are_flat(&self.unknown)
    }
}

impl Flat for SourceCodeInfo {
    ghost levels = { source_code_info_levels };

    ghost MOST = { 1 };

    fn is_flat(&self) -> bool {
        all_flat(&self.location) && are_flat(&self.unknown)
    }
}

/// Whether what stands in a message, beside those nested in it, has no group.
#[tactic(auto, using(crate::proofs::Flat::message_within))]
fn own_parts_are_flat(message: &DescriptorProto) -> bool
    ensures { IsTrue result → (n : ℕ) → 3 ≤ n → below message_levels (out-DescriptorProto message.now).nested_type ≤ n
        → message_levels message.now ≤ n }
{
    all_flat(&message.field)
        && all_flat(&message.enum_type)
        && all_flat(&message.extension_range)
        && all_flat(&message.extension)
        && options_are_flat(&message.options)
        && all_flat(&message.oneof_decl)
        && all_flat(&message.reserved_range)
        && are_flat(&message.unknown)
}

/// Whether a message has at most so many levels: no, where it has groups or too few levels are asked for.
#[cycle(within)]
fn is_within(message: &DescriptorProto, levels: u32) -> bool
    ensures { IsTrue result → message_levels message.now ≤ levels }
{
    levels >= 3 && own_parts_are_flat(message) && are_within(&message.nested_type, levels - 1)
}

/// The same of each message of a list, each of which is one level.
#[cycle(within)]
fn are_within(messages: &List<DescriptorProto>, levels: u32) -> bool
    ensures { IsTrue result → below message_levels messages.now ≤ levels + 1 }
{
    for message in messages.as_slice() {
        if !is_within(message, levels) {
            return false;
        }
    }
    true
}

/// Whether the places, if there are any, have no group.
fn source_is_flat(source: &Option<SourceCodeInfo>) -> bool
    ensures { IsTrue result → below_one source_code_info_levels source.now ≤ 2 }
{
    match source {
        Some(source) => source.is_flat(),
        None => true,
    }
}

/// Whether a file surely has at most 100 levels. Where it has groups, that is not sure.
pub(crate) fn is_shallow(file: &FileDescriptorProto) -> bool
    ensures { IsTrue result → file_levels file.now ≤ 100 }
{
    are_within(&file.message_type, 99)
        && all_flat(&file.enum_type)
        && all_flat(&file.service)
        && all_flat(&file.extension)
        && options_are_flat(&file.options)
        && source_is_flat(&file.source_code_info)
        && are_flat(&file.unknown)
}
