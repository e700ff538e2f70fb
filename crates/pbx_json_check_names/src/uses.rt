ghost use Rattle.std.specs.Prelude.{◌≡◌, ℕ, List as ListOf, Some, None, cond, IfOk, OnOk};
ghost use Rattle.std.specs.BTreeMap.{get_by_text};
ghost use Rattle.std.specs.Str.{bytes_eq};
ghost use Rattle.pbx_json_check_names.specs.Uses.{with_use as with_use_of, used_by, named, named_by, use_by_names, is_another as is_another_of};
ghost use Rattle.pbx_json_check_names.specs.Uses.{is_of_another as is_of_another_of, is_clash as is_clash_of, is_clashing as is_clashing_of};

use pbx_content::FieldShape;
use pbx_wire::NoMemory;
use std::alloc::Global;
use std::collections::BTreeMap;

/// What a key of a message's JSON is used for.
#[derive(Clone, Copy)]
pub(crate) enum KeyUse {
    /// One field of the message itself, of this number.
    Own(u32),
    /// Extensions alone.
    Extension,
    /// A field of the message itself, and another field or an extension.
    Clash,
}

/// The use of a key with one field more, of this number.
fn with_use(is_extension: bool, number: u32, used: Option<KeyUse>) -> KeyUse
    ensures { result ≡ with_use_of is_extension number used }
{
    match used {
        None => if is_extension {
            KeyUse::Extension
        } else {
            KeyUse::Own(number)
        },
        Some(KeyUse::Own(_)) => KeyUse::Clash,
        Some(KeyUse::Extension) => if is_extension {
            KeyUse::Extension
        } else {
            KeyUse::Clash
        },
        Some(KeyUse::Clash) => KeyUse::Clash,
    }
}

/// Whether the key has two meanings.
fn is_clash(used: Option<KeyUse>) -> bool
    ensures { result ≡ is_clash_of used }
{
    matches!(used, Some(KeyUse::Clash))
}

/// The use of a key.
fn use_of(uses: &BTreeMap<String, KeyUse>, key: &str) -> Option<KeyUse>
    ensures { result ≡ get_by_text uses.now key.now }
{
    uses.get(key).copied()
}

/// Puts the use of a key.
fn set_use(
    alloc: Global,
    uses: &mut BTreeMap<String, KeyUse>,
    key: &str,
    used: KeyUse,
) -> Result<(), NoMemory>
    ensures { OnOk result ((q : ListOf ℕ) → get_by_text uses.new q ≡ cond (bytes_eq key.now q) (Some used) (get_by_text uses.old q)) }
{
    let owned = String::from_str(alloc, key)?;
    uses.insert(owned, used)?;
    Ok(())
}

/// The uses of these fields' JSON names as their keys.
fn uses_of(alloc: Global, fields: &[FieldShape]) -> Result<BTreeMap<String, KeyUse>, NoMemory>
    ensures { IfOk result (λ uses. (q : ListOf ℕ) → get_by_text uses q ≡ used_by q fields.now None) }
{
    let mut uses = BTreeMap::new(alloc);
    for field in fields {
        let name = field.json_name.as_str();
        let used = with_use(field.is_extension, field.number, use_of(&uses, name));
        set_use(alloc, &mut uses, name, used)?;
    }
    Ok(uses)
}

/// Whether a field of another number has the key.
fn is_another(used: Option<KeyUse>, number: u32) -> bool
    ensures { result ≡ is_another_of used number }
{
    match used {
        Some(KeyUse::Own(own)) => number != own,
        _ => false,
    }
}

/// Whether the field's name, where it is not its key, is the key of another field.
fn is_of_another(uses: &BTreeMap<String, KeyUse>, field: &FieldShape) -> bool
    ensures { result ≡ is_of_another_of (get_by_text uses.now field.now.name) field.now }
{
    let name = field.name.as_str();
    !field.is_extension
        && name != field.json_name.as_str()
        && is_another(use_of(uses, name), field.number)
}

/// Where the field's name is another field's key, the key has two meanings.
fn add_name(
    alloc: Global,
    uses: &mut BTreeMap<String, KeyUse>,
    field: &FieldShape,
) -> Result<(), NoMemory>
    ensures { OnOk result ((q : ListOf ℕ) → get_by_text uses.new q ≡ named q field.now (get_by_text uses.old q)) }
{
    if is_of_another(uses, field) {
        return set_use(alloc, uses, field.name.as_str(), KeyUse::Clash);
    }
    Ok(())
}

/// Where these fields' names are keys of other fields, the keys have two meanings.
fn add_names(
    alloc: Global,
    uses: &mut BTreeMap<String, KeyUse>,
    fields: &[FieldShape],
) -> Result<(), NoMemory>
    ensures { OnOk result ((q : ListOf ℕ) → get_by_text uses.new q ≡ named_by q fields.now (get_by_text uses.old q)) }
{
    for field in fields {
        add_name(alloc, uses, field)?;
    }
    Ok(())
}

/// What the keys of these fields are used for, as JSON names and as names.
pub(crate) fn meanings_of(
    alloc: Global,
    fields: &[FieldShape],
) -> Result<BTreeMap<String, KeyUse>, NoMemory>
    ensures { IfOk result (λ uses. (q : ListOf ℕ) → get_by_text uses q ≡ use_by_names q fields.now) }
{
    let mut uses = uses_of(alloc, fields)?;
    add_names(alloc, &mut uses, fields)?;
    Ok(uses)
}

/// Whether the field's key has another meaning.
pub(crate) fn is_clashing(uses: &BTreeMap<String, KeyUse>, field: &FieldShape) -> bool
    ensures { result ≡ is_clashing_of (get_by_text uses.now field.now.json_name) field.now }
{
    let name = field.json_name.as_str();
    let clash = is_clash(use_of(uses, name)) || name == "@type";
    !field.is_extension && clash
}
