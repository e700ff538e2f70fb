//! The names in the scope of a message.

ghost use Rattle.std.specs.Prelude.{◌≡◌, ◌++◌, ◌∷◌, [], ℕ, List as ListOf, OnOk};
ghost use Rattle.std.specs.List.{flat_map};
ghost use Rattle.pbx_parse_tree.specs.View.{member_of, extension_of, enum_item_of, item_of};
ghost use Rattle.pbx_parse_translation.specs.Texts.{entry_name as entry_name_of};
ghost use Rattle.pbx_parse_translation.specs.Synthetic.{is_among};
ghost use Rattle.pbx_parse_translation.specs.Messages.{member_names, value_names, extension_names, names_in};
ghost use Rattle.pbx_parse_translation.specs.Scope.{Holds};

use crate::texts::entry_name;
use pbx_parse_tree::{EnumItem, Extension, Item, Member};
use pbx_wire::NoMemory;
use std::alloc::Global;
use std::collections::BTreeSet;

/// Names.
#[derive(Drop)]
pub(crate) struct Scope {
    names: BTreeSet<String>,
    /// How often any was added.
    pub(crate) count: usize,
}

impl Scope {
    pub(crate) fn new(alloc: Global) -> Scope
        ensures { Holds result [] }
    {
        Scope {
            names: BTreeSet::new(alloc),
            count: 0,
        }
    }

    /// Whether the name was added.
    pub(crate) fn has(&self, name: &str) -> bool
        ensures { (names : ListOf (ListOf ℕ)) → Holds self.now names → result ≡ is_among names name.now }
    {
        self.names.contains(name)
    }

    pub(crate) fn add(&mut self, alloc: Global, name: &str) -> Result<(), NoMemory>
        ensures { (names : ListOf (ListOf ℕ)) → Holds self.old names → OnOk result (Holds self.new (names ++ name.now ∷ [])) }
    {
        let name = String::from_str(alloc, name)?;
        self.names.insert(name)?;
        self.count = self.count.checked_add(1).ok_or(NoMemory)?;
        Ok(())
    }
}

/// What puts names into the scope of a message.
pub(crate) trait Names {
    ghost names: { Self → ListOf (ListOf ℕ) };

    fn add_names(&self, alloc: Global, scope: &mut Scope) -> Result<(), NoMemory>
        ensures { (before : ListOf (ListOf ℕ)) → Holds scope.old before → OnOk result (Holds scope.new (before ++ names self.now)) };
}

/// Adds the names of each.
pub(crate) fn add_all_names<T: Names>(
    alloc: Global,
    items: &[T],
    scope: &mut Scope,
) -> Result<(), NoMemory>
    ensures { (before : ListOf (ListOf ℕ)) → Holds scope.old before → OnOk result (Holds scope.new (before ++ flat_map T.names items.now)) }
{
    'each: for item in items {
        item.add_names(alloc, scope)?;
    }
    Ok(())
}

/// Adds the name, and then the names of each of the parts.
fn add_with_parts<T: Names>(
    alloc: Global,
    name: &str,
    parts: &[T],
    scope: &mut Scope,
) -> Result<(), NoMemory>
    ensures { (before : ListOf (ListOf ℕ)) → Holds scope.old before → OnOk result (Holds scope.new (before ++ name.now ∷ flat_map T.names parts.now)) }
{
    scope.add(alloc, name)?;
    add_all_names(alloc, parts, scope)
}

/// Adds the names of a map field and of its entry.
fn add_map_names(alloc: Global, name: &str, scope: &mut Scope) -> Result<(), NoMemory>
    ensures { (before : ListOf (ListOf ℕ)) → Holds scope.old before → OnOk result (Holds scope.new (before ++ name.now ∷ entry_name_of name.now ∷ [])) }
{
    scope.add(alloc, name)?;
    scope.add(alloc, entry_name(alloc, name)?.as_str())
}

impl Names for Member<'_> {
    ghost names = { λ member. member_names (member_of member) };

    fn add_names(&self, alloc: Global, scope: &mut Scope) -> Result<(), NoMemory> {
        match self {
            Member::Empty(_) => Ok(()),
            Member::Field(_, tail) => scope.add(alloc, tail.name.text),
        }
    }
}

impl Names for EnumItem<'_> {
    ghost names = { λ item. value_names (enum_item_of item) };

    fn add_names(&self, alloc: Global, scope: &mut Scope) -> Result<(), NoMemory> {
        match self {
            EnumItem::Value(value) => scope.add(alloc, value.name.text),
            _ => Ok(()),
        }
    }
}

impl Names for Extension<'_> {
    ghost names = { λ extension. extension_names (extension_of extension) };

    fn add_names(&self, alloc: Global, scope: &mut Scope) -> Result<(), NoMemory> {
        match self {
            Extension::Empty(_) => Ok(()),
            Extension::Field(field) => scope.add(alloc, field.tail.name.text),
        }
    }
}

impl Names for Item<'_> {
    ghost names = { λ item. names_in (item_of item) };

    fn add_names(&self, alloc: Global, scope: &mut Scope) -> Result<(), NoMemory> {
        match self {
            Item::Field(field) => scope.add(alloc, field.tail.name.text),
            Item::Map(map) => add_map_names(alloc, map.tail.name.text, scope),
            Item::Oneof(oneof) => {
                add_with_parts(alloc, oneof.name.text, oneof.members.as_slice(), scope)
            }
            Item::Message(head, _, _) => scope.add(alloc, head.name.text),
            Item::Enum(item) => add_with_parts(alloc, item.name.text, item.items.as_slice(), scope),
            Item::Extend(extend) => add_all_names(alloc, extend.extensions.as_slice(), scope),
            Item::Empty(_) | Item::Extensions(_) | Item::Reserved(_) | Item::Option(_) => Ok(()),
        }
    }
}
