// Declared defaults (`descriptor.proto`: FieldDescriptorProto.default_value).
ghost use Rattle.std.specs.Prelude.{◌≡◌, IfOk};
ghost use Rattle.pbx_link_definitions.specs.Places.{IsAmong};
ghost use Rattle.pbx_link_rules_scope.specs.Defaults.{is_unnamed_default as is_unnamed_default_of, is_value_name as is_value_name_of};
ghost use Rattle.pbx_link_rules_scope.specs.Defaults.{is_default_of as is_default_of_type, has_bad_default, bad_defaults as bad_defaults_of};

use crate::decimals::{is_signed_text, is_unsigned_text};
use crate::escapes::has_good_escapes;
use crate::maps::is_repeated;
use crate::searches::{Place, Rule, broken_extension, broken_field};
use pbx_desc_records::{EnumDescriptorProto, FieldDescriptorProto};
use pbx_link_definitions::{FileParts, is_named};
use pbx_link_scope::{Bound, Visible, type_of};
use pbx_wire::NoMemory;
use std::alloc::Global;

/// Whether the text is a default of a type that is no enum, by the type's number.
fn is_unnamed_default(kind: Option<i32>, text: &str) -> bool
    ensures { result ≡ is_unnamed_default_of kind text.now }
{
    match kind {
        Some(5 | 15 | 17) => is_signed_text(0x7fff_ffff, text.as_bytes()),
        Some(3 | 16 | 18) => is_signed_text(0x7fff_ffff_ffff_ffff, text.as_bytes()),
        Some(7 | 13) => is_unsigned_text(0xffff_ffff, text.as_bytes()),
        Some(4 | 6) => is_unsigned_text(u64::MAX, text.as_bytes()),
        Some(8) => matches!(text, "true" | "false"),
        Some(11) => false,
        Some(12) => has_good_escapes(text.as_bytes()),
        _ => true,
    }
}

/// Whether a value of the enum has this name.
fn is_value_name(item: &EnumDescriptorProto, text: &str) -> bool
    ensures { result ≡ is_value_name_of item.now text.now }
{
    item.value
        .as_slice()
        .iter()
        .any(|value| is_named(&value.name, text))
}

/// Whether the text is a default of the type, which a name may be bound to.
fn is_default_of(found: &Option<Bound<'_>>, kind: Option<i32>, text: &str) -> bool
    ensures { result ≡ is_default_of_type found.now kind text.now }
{
    match found {
        Some(Bound::Message(_)) => false,
        Some(Bound::Enum(part)) => is_value_name(part.item(), text),
        None => is_unnamed_default(kind, text),
    }
}

/// The defaults of fields and extensions.
#[derive(Drop)]
struct Defaults<'a, V> {
    seen: &'a V,
    proto3: bool,
}

impl<'a, V: Visible> Rule<FieldDescriptorProto> for Defaults<'a, V> {
    ghost breaks = { λ r. has_bad_default r.proto3 (V.files r.seen.now) };

    fn is_broken(
        &self,
        alloc: Global,
        scope: &str,
        item: &FieldDescriptorProto,
    ) -> Result<bool, NoMemory> {
        let Some(text) = &item.default_value else {
            return Ok(false);
        };
        if self.proto3 || is_repeated(item) {
            return Ok(true);
        }
        let found = type_of(alloc, self.seen, scope, item)?;
        Ok(!is_default_of(&found, item.kind, text.as_str()))
    }
}

/// A place at which rule 11 (defaults) is broken, if there is one: a field or an extension has a default and is repeated, of a message type
/// or in a file of proto3; or the default is no decimal number of an integer type's range, where `-` stands before signed ones only and
/// leading zeros are allowed, neither `true` nor `false` for `bool`, no value's name for an enum, or has a wrong escape for `bytes`
/// (`descriptor.proto`: FieldDescriptorProto.default_value). Texts for floats and strings are not looked at. The only error is want of
/// memory; an index above those of 31 bits is refused likewise.
pub fn bad_defaults<V: Visible>(
    alloc: Global,
    seen: &V,
    parts: &FileParts<'_>,
) -> Result<Option<Place>, NoMemory>
    ensures { IfOk result (IsAmong (bad_defaults_of (V.files seen.now) parts.now)) }
{
    let proto3 = is_named(&parts.file().syntax, "proto3");
    let rule = Defaults { seen, proto3 };
    match broken_field(alloc, &rule, 7, parts.messages())? {
        Some(place) => Ok(Some(place)),
        None => broken_extension(alloc, &rule, 7, parts.extensions()),
    }
}
