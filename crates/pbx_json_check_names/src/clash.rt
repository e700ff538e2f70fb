ghost use Rattle.std.specs.Prelude.{◌≡◌, ◌⊎◌, Some, None, true, false, IfOk, IfErr, OnOk, option_map, length};
ghost use Rattle.std.specs.BTreeMap.{get_by_text};
ghost use Rattle.pbx_json_meaning.specs.Clash.{ByAnyName, lesser_key as lesser_key_of, clashing_key as clashing_key_of, first_clash as first_clash_of};
ghost use Rattle.pbx_json_meaning.specs.declared.names_fault.NameFault.TheVariants as fault;
ghost use Rattle.pbx_json_check_names.specs.Uses.{is_clashing as is_clashing_of, least_with};

use crate::uses::{KeyUse, is_clashing, meanings_of};
use pbx_content::{FieldShape, MessageShape, Schema};
use pbx_json_meaning::NameFault;
use pbx_wire::{NoMemory, Text};
use std::alloc::Global;
use std::collections::BTreeMap;

/// The lesser of keys by bytes.
fn lesser_key<'f>(key: &'f str, least: Option<&'f str>) -> &'f str
    ensures { result.now ≡ lesser_key_of key.now (option_map (λ l. l.now) least.entry) }
{
    match least {
        None => key,
        Some(least) => if least < key { least } else { key },
    }
}

/// The least key with one field more.
fn least_with_field<'f>(
    uses: &BTreeMap<String, KeyUse>,
    field: &'f FieldShape,
    least: Option<&'f str>,
) -> Option<&'f str>
    ensures { option_map (λ l. l.now) result ≡ least_with (is_clashing_of (get_by_text uses.now field.now.json_name) field.now) field.now.json_name
        (option_map (λ l. l.now) least.entry) }
{
    if is_clashing(uses, field) {
        Some(lesser_key(field.json_name.as_str(), least))
    } else {
        least
    }
}

/// The least key of these fields that has another meaning.
fn clashing_key<'f>(alloc: Global, fields: &'f [FieldShape]) -> Result<Option<&'f str>, NoMemory>
    ensures { IfOk result (λ found. option_map (λ l. l.now) found ≡ clashing_key_of ByAnyName fields.now) }
{
    let uses = meanings_of(alloc, fields)?;
    let mut least = None;
    let mut left = fields.len();
    while left > 0 {
        left -= 1;
        least = least_with_field(&uses, &fields[left], least);
    }
    Ok(least)
}

/// The fault of a message and a key, unless memory runs out.
fn key_fault(alloc: Global, message: &MessageShape, key: &str) -> NameFault
    ensures { (result ≡ fault.NoMemory) ⊎ (result ≡ fault.JsonNames message.now.full_name key.now) }
{
    let Ok(full_name) = message.full_name.copy(alloc) else {
        return NameFault::NoMemory;
    };
    match Text::from_str(alloc, key) {
        Ok(key) => NameFault::JsonNames {
            message: full_name,
            key,
        },
        Err(NoMemory) => NameFault::NoMemory,
    }
}

/// The first message of the schema with a key that has two meanings, and its least such key.
pub(crate) fn first_clash(alloc: Global, schema: &Schema) -> Result<(), NameFault>
    ensures ok { OnOk result (first_clash_of ByAnyName schema.now.messages ≡ None) }
    ensures err { IfErr result (λ e. (e ≡ fault.NoMemory) ⊎ (first_clash_of ByAnyName schema.now.messages ≡ Some e)) }
{
    for message in schema.shape().messages.as_slice() {
        match clashing_key(alloc, message.fields.as_slice()) {
            Ok(None) => {}
            Ok(Some(key)) => return Err(key_fault(alloc, message, key)),
            Err(NoMemory) => return Err(NameFault::NoMemory),
        }
    }
    Ok(())
}
