// The parts of a file's record, each with its scope and its place.
ghost use Rattle.std.specs.Prelude.{◌≡◌, ◌++◌, ◌∷◌, [], pos, IfOk, OnOk};
ghost use Rattle.std.specs.List.{flat_map};
ghost use Rattle.pbx_link_definitions.specs.Names.{qualified};
ghost use Rattle.pbx_link_definitions.specs.Definitions.{at as at_of, parts as parts_of};

use pbx_wire::{List, NoMemory, Text};
use std::alloc::Global;
use std::marker::Model;

/// A part of a file's record: the full name of what holds it, its place, which of its kind it is there, and the record.
#[derive(Drop)]
pub struct Part<'a, T> {
    scope: Text,
    place: List<i32>,
    index: usize,
    item: &'a T,
}

impl<'a, T> Model for Part<'a, T> {
    ghost use Rattle.pbx_link_definitions.specs.Definitions.{Part as PartOf};
    ghost use Rattle.pbx_link_definitions.specs.Codes.{part_code};

    ghost Value = { PartOf T };

    ghost coded = { part_code T.code };

    ghost view = { λ p. record { scope = p.scope; place = p.place; index = p.index; item = p.item.now } };
}

impl<'a, T> Part<'a, T> {
    /// The part of these.
    pub fn new(scope: Text, place: List<i32>, index: usize, item: &'a T) -> Part<'a, T>
        ensures { result ≡ record { scope = scope; place = place; index = index; item = item.now } }
    {
        Part {
            scope,
            place,
            index,
            item,
        }
    }

    /// The full name of what holds the part.
    pub fn scope(&self) -> &str
        ensures { result.now ≡ self.now.scope }
    {
        self.scope.as_str()
    }

    /// The part's place in the file's record.
    pub fn place(&self) -> &[i32]
        ensures { result.now ≡ self.now.place }
    {
        self.place.as_slice()
    }

    /// Which of its kind the part is where it stands, from 0.
    pub fn index(&self) -> usize
        ensures { result ≡ self.now.index }
    {
        self.index
    }

    /// The record.
    pub fn item(&self) -> &'a T
        ensures { result.now ≡ self.now.item }
    {
        self.item
    }

    /// The part, lent.
    pub fn as_ref(&self) -> PartRef<'_, T>
        ensures { result ≡ self.now }
    {
        PartRef::new(
            self.scope.as_str(),
            self.place.as_slice(),
            self.index,
            self.item,
        )
    }

    /// The place of the field of this number of the record. The only error is want of memory.
    pub fn at(&self, alloc: Global, number: u8) -> Result<List<i32>, NoMemory>
        ensures { IfOk result (λ place. place ≡ at_of self.now number) }
    {
        place_at(alloc, self.place.as_slice(), number)
    }
}

/// A part of a file's record that someone else holds.
#[derive(Drop)]
pub struct PartRef<'a, T> {
    scope: &'a str,
    place: &'a [i32],
    index: usize,
    item: &'a T,
}

impl<'a, T> Model for PartRef<'a, T> {
    ghost use Rattle.pbx_link_definitions.specs.Definitions.{Part as PartOf};
    ghost use Rattle.pbx_link_definitions.specs.Codes.{part_code};

    ghost Value = { PartOf T };

    ghost coded = { part_code T.code };

    ghost view = { λ p. record { scope = p.scope.now; place = p.place.now; index = p.index; item = p.item.now } };
}

impl<'a, T> PartRef<'a, T> {
    /// The part of these.
    pub fn new(scope: &'a str, place: &'a [i32], index: usize, item: &'a T) -> PartRef<'a, T>
        ensures { result ≡ record { scope = scope.now; place = place.now; index = index; item = item.now } }
    {
        PartRef {
            scope,
            place,
            index,
            item,
        }
    }

    /// The full name of what holds the part.
    pub fn scope(&self) -> &'a str
        ensures { result.now ≡ self.now.scope }
    {
        self.scope
    }

    /// The part's place in the file's record.
    pub fn place(&self) -> &'a [i32]
        ensures { result.now ≡ self.now.place }
    {
        self.place
    }

    /// Which of its kind the part is where it stands, from 0.
    pub fn index(&self) -> usize
        ensures { result ≡ self.now.index }
    {
        self.index
    }

    /// The record.
    pub fn item(&self) -> &'a T
        ensures { result.now ≡ self.now.item }
    {
        self.item
    }
}

/// The name in its scope. The only error is want of memory.
pub fn name_in(alloc: Global, scope: &str, name: &str) -> Result<Text, NoMemory>
    ensures { IfOk result (λ full. full ≡ qualified scope.now name.now) }
{
    if scope.is_empty() {
        return Text::from_str(alloc, name);
    }
    Text::joined(alloc, &[scope, ".", name])
}

/// An equal place, with room for a number and an index behind it. The only error is want of memory.
pub fn place_copy(alloc: Global, place: &[i32]) -> Result<List<i32>, NoMemory>
    ensures { IfOk result (λ copy. copy ≡ place.now) }
{
    let mut copy = List::with_capacity(alloc, place.len().saturating_add(2))?;
    for step in place {
        copy.add(*step)?;
    }
    Ok(copy)
}

/// The place of the field of this number of what stands at the place. The only error is want of memory.
pub fn place_at(alloc: Global, place: &[i32], number: u8) -> Result<List<i32>, NoMemory>
    ensures { IfOk result (λ there. there ≡ place.now ++ pos number ∷ []) }
{
    let mut there = place_copy(alloc, place)?;
    there.add(i32::from(number))?;
    Ok(there)
}

/// The place of the item at the index in the list of this number of what stands at the place. The only error is want of memory; an
/// index above those of 31 bits is refused likewise.
pub fn place_in(
    alloc: Global,
    place: &[i32],
    number: u8,
    index: usize,
) -> Result<List<i32>, NoMemory>
    ensures { IfOk result (λ there. there ≡ place.now ++ pos number ∷ pos index ∷ []) }
{
    let mut there = place_at(alloc, place, number)?;
    match i32::try_from(index) {
        Ok(index) => there.add(index)?,
        Err(_) => return Err(NoMemory),
    }
    Ok(there)
}

/// The place of the field of this number of the item at the index in that list of what stands at the place. The only error is want of
/// memory; an index above those of 31 bits is refused likewise.
pub fn place_in_item(
    alloc: Global,
    place: &[i32],
    list: u8,
    index: usize,
    number: u8,
) -> Result<List<i32>, NoMemory>
    ensures { IfOk result (λ there. there ≡ place.now ++ pos list ∷ pos index ∷ pos number ∷ []) }
{
    let mut there = place_in(alloc, place, list, index)?;
    there.add(i32::from(number))?;
    Ok(there)
}

/// Adds the items of a list, which is the field of this number of what stands at the place.
#[tactic(auto, using(crate::proofs::Listed::part_added))]
pub(crate) fn add_parts<'a, T>(
    alloc: Global,
    scope: &str,
    place: &[i32],
    number: u8,
    items: &'a [T],
    parts: &mut List<Part<'a, T>>,
) -> Result<(), NoMemory>
    ensures { OnOk result (parts.new ≡ parts.old ++ parts_of scope.now place.now number items.now) }
{
    for (index, item) in items.iter().enumerate() {
        let there = place_in(alloc, place, number, index)?;
        let part = Part::new(Text::from_str(alloc, scope)?, there, index, item);
        parts.add(part)?;
    }
    Ok(())
}
