ghost use Rattle.std.specs.Prelude.{◌≡◌, ◌∷◌, ◌++◌, [], Some, false, IfErr, OnOk, IsOkAnd, length};
ghost use Rattle.serde_json.specs.View.{view, members_view};
ghost use Rattle.pbx_json_meaning.specs.Canonical.{has_key as has_key_in, with_member};
ghost use Rattle.pbx_json_meaning.specs.declared.place.Step.TheVariants.{Index};
ghost use Rattle.pbx_json_writing.specs.Refusals.{IsPassedOn, IsMemberRefused};
ghost use Rattle.pbx_json_writing.specs.declared.refusal.Refusal.TheVariants as refused;

use crate::Refusal;
use pbx_json_meaning::{JsonKind, Step};
use serde_json::{Map, Value};
use std::alloc::Global;

/// Whether an object has the key.
fn has_key(map: &Map<String, Value>, key: &str) -> bool
    ensures { result ≡ has_key_in key.now (members_view map.now.entries) }
{
    map.contains_key(key)
}

/// Puts a tree under a key that is new.
pub(crate) fn put(
    alloc: Global,
    key: &str,
    tree: Value,
    map: &mut Map<String, Value>,
) -> Result<(), Refusal>
    requires { has_key_in key.now (members_view map.old.entries) ≡ false }
    ensures written { OnOk result (with_member key.now (view tree) (members_view map.old.entries) ≡ Some (members_view map.new.entries)) }
    ensures refused { IfErr result (λ r. r ≡ refused.Memory) }
{
    let Ok(key) = String::from_str(alloc, key) else {
        return Err(Refusal::Memory);
    };
    match map.insert(key, tree) {
        Ok(_) => Ok(()),
        Err(_) => Err(Refusal::Memory),
    }
}

/// Puts what is written under a key. That the key is there already is a fault.
pub(crate) fn add_member(
    alloc: Global,
    key: &str,
    written: Result<Value, Refusal>,
    map: &mut Map<String, Value>,
) -> Result<(), Refusal>
    ensures written { OnOk result (IsOkAnd written (λ tree. with_member key.now (view tree) (members_view map.old.entries)
        ≡ Some (members_view map.new.entries))) }
    ensures refused { IfErr result (IsMemberRefused key.now written (members_view map.old.entries)) }
{
    if has_key(map, key) {
        return Err(Refusal::at_key(alloc, key, JsonKind::DuplicateField));
    }
    match written {
        Ok(tree) => put(alloc, key, tree, map),
        Err(refusal) => Err(refusal.under_key(alloc, key)),
    }
}

/// Adds what is written to the elements of an array.
pub(crate) fn add_item(
    written: Result<Value, Refusal>,
    items: &mut Vec<Value>,
) -> Result<(), Refusal>
    ensures written { OnOk result (IsOkAnd written (λ tree. items.new.items ≡ items.old.items ++ tree ∷ [])) }
    ensures refused { IfErr result (IsPassedOn (Index (length items.old.items)) written) }
{
    match written {
        Ok(tree) => match items.push(tree) {
            Ok(()) => Ok(()),
            Err(_) => Err(Refusal::Memory),
        },
        Err(refusal) => Err(refusal.above(Step::Index(items.len() as u64))),
    }
}
