// The JSON names of fields.
ghost use Rattle.std.specs.Prelude.{◌≡◌, IfOk};
ghost use Rattle.pbx_link_definitions.specs.Names.{text_or_empty as text_or_empty_of};
ghost use Rattle.pbx_link_record.specs.Linked.{default_json_name as default_json_name_of, json_name_or_default as json_name_or_default_of};

use pbx_desc_records::FieldDescriptorProto;
use pbx_link_definitions::text_or_empty;
use pbx_wire::{NoMemory, Text};
use std::alloc::Global;

/// The key in canonical JSON of a field of this name: without its `_`, what stands behind one in upper case.
fn default_json_name(alloc: Global, name: &str) -> Result<Text, NoMemory>
    ensures { IfOk result (λ text. text ≡ default_json_name_of name.now) }
{
    let mut camel = String::new(alloc);
    let mut behind = false;
    for c in name.chars() {
        if c == '_' {
            behind = true;
        } else {
            camel.push(if behind { c.to_ascii_uppercase() } else { c })?;
            behind = false;
        }
    }
    Text::from_str(alloc, camel.as_str())
}

/// The JSON name that the field has, or else the default one. The only error is want of memory.
pub(crate) fn json_name_or_default(
    alloc: Global,
    field: &FieldDescriptorProto,
) -> Result<Text, NoMemory>
    ensures { IfOk result (λ text. text ≡ json_name_or_default_of field.now.json_name (text_or_empty_of field.now.name)) }
{
    match &field.json_name {
        Some(json_name) => json_name.copy(alloc),
        None => default_json_name(alloc, text_or_empty(&field.name)),
    }
}
