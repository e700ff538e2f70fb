// What is kept while the keys of an object of fields are read.
ghost use Rattle.std.specs.Prelude.{◌≡◌, [], Ok, OnOk, IfOk, IfErr, option_map};
ghost use Rattle.std.specs.BTreeSet.{contains as contains_of};
ghost use Rattle.std.specs.Ordering.{nat_cmp};
ghost use Rattle.pbx_content_map.specs.Entries.{with_entries};
ghost use Rattle.pbx_content_codec.specs.View.{content_of, val_of};
ghost use Rattle.pbx_json_meaning.specs.declared.kind.JsonKind.TheVariants.{NoMemory as OutOfMemory};
ghost use Rattle.pbx_json_walk.specs.Walk.{State, IsFaultOf, noted, start, is_taken as is_taken_of, with_found, with_number, with_oneof};
ghost use Rattle.pbx_json_reading.specs.States.{content_with, state_of};

use crate::fault::at_tree;
use pbx_content::FieldShape;
use pbx_content_codec::{Contents, Held};
use pbx_content_map::NumberMap;
use pbx_json_meaning::{JsonError, JsonKind};
use pbx_wire::{List, NoMemory, Recs};
use std::alloc::Global;
use std::collections::BTreeSet;

/// The numbers of the fields that a key named, the oneofs of which a member has a value, and the values so far in order of
/// arrival, which is the order of their names.
#[derive(Drop)]
pub(crate) struct ObjectState {
    seen: BTreeSet<u32>,
    taken: BTreeSet<u32>,
    values: List<(u32, Held)>,
}

/// The numbers with one more.
fn add_number(numbers: &mut BTreeSet<u32>, number: u32) -> Result<(), NoMemory>
    ensures { OnOk result (numbers.new ≡ with_number number numbers.old) }
{
    match numbers.insert(number) {
        Ok(_) => Ok(()),
        Err(_) => Err(NoMemory),
    }
}

/// The oneofs with one more, if there is one.
fn add_oneof(taken: &mut BTreeSet<u32>, oneof: Option<u32>) -> Result<(), NoMemory>
    ensures { OnOk result (taken.new ≡ with_oneof oneof taken.old) }
{
    match oneof {
        Some(oneof) => add_number(taken, oneof),
        None => Ok(()),
    }
}

impl ObjectState {
    /// Nothing was named.
    pub(crate) fn new(alloc: Global) -> ObjectState
        ensures { state_of result ≡ start }
    {
        ObjectState {
            seen: BTreeSet::new(alloc),
            taken: BTreeSet::new(alloc),
            values: List::new(alloc),
        }
    }

    /// Whether a key named the field of a number.
    pub(crate) fn is_seen(&self, number: u32) -> bool
        ensures { result ≡ contains_of nat_cmp (state_of self.now).seen number }
    {
        self.seen.contains(&number)
    }

    /// Whether a member of the oneof has a value.
    fn is_taken(&self, oneof: Option<u32>) -> bool
        ensures { result ≡ is_taken_of oneof (state_of self.now).taken }
    {
        match oneof {
            Some(oneof) => self.taken.contains(&oneof),
            None => false,
        }
    }

    /// With a value for a field.
    fn put(&mut self, field: &FieldShape, held: Held) -> Result<(), NoMemory>
        ensures { OnOk result (state_of self.new ≡ record {
          seen = with_number field.now.number (state_of self.old).seen;
          taken = with_oneof field.now.oneof (state_of self.old).taken;
          found = with_found field.now.number (val_of held) (state_of self.old).found;
        }) }
    {
        let number = field.number;
        if add_number(&mut self.seen, number).is_err() {
            drop(held);
            return Err(NoMemory);
        }
        if add_oneof(&mut self.taken, field.oneof).is_err() {
            drop(held);
            return Err(NoMemory);
        }
        self.values.add((number, held))
    }

    /// Without a value for a field.
    fn pass(&mut self, field: &FieldShape) -> Result<(), NoMemory>
        ensures { OnOk result (state_of self.new ≡ record {
          seen = with_number field.now.number (state_of self.old).seen;
          taken = (state_of self.old).taken;
          found = (state_of self.old).found;
        }) }
    {
        let number = field.number;
        add_number(&mut self.seen, number)
    }

    /// With a value for a field, unless another member of its oneof has one.
    fn note_value(&mut self, alloc: Global, field: &FieldShape, held: Held) -> Result<(), JsonError>
        ensures ok { OnOk result (noted field.now (state_of self.old) (Some (val_of held)) ≡ Ok (state_of self.new)) }
        ensures err { IfErr result (λ e. IsFaultOf (noted field.now (state_of self.old) (Some (val_of held))) e) }
    {
        if self.is_taken(field.oneof) {
            drop(held);
            return Err(at_tree(alloc, JsonKind::OneofTwice));
        }
        match self.put(field, held) {
            Ok(()) => Ok(()),
            Err(_) => Err(at_tree(alloc, JsonKind::NoMemory)),
        }
    }

    /// With what was read for a field.
    pub(crate) fn note(
        &mut self,
        alloc: Global,
        field: &FieldShape,
        held: Option<Held>,
    ) -> Result<(), JsonError>
        ensures ok { OnOk result (noted field.now (state_of self.old) (option_map val_of held) ≡ Ok (state_of self.new)) }
        ensures err { IfErr result (λ e. IsFaultOf (noted field.now (state_of self.old) (option_map val_of held)) e) }
    {
        match held {
            Some(held) => self.note_value(alloc, field, held),
            None => match self.pass(field) {
                Ok(()) => Ok(()),
                Err(_) => Err(at_tree(alloc, JsonKind::NoMemory)),
            },
        }
    }

    /// The content that was found.
    pub(crate) fn into_contents(self, alloc: Global) -> Result<Contents, JsonError>
        ensures ok { IfOk result (λ contents. content_of contents ≡ (state_of self).found) }
        ensures err { IfErr result (λ e. e.kind ≡ OutOfMemory) }
    {
        match contents_with(alloc, self.values) {
            Ok(contents) => Ok(contents),
            Err(_) => Err(at_tree(alloc, JsonKind::NoMemory)),
        }
    }
}

/// The values by number, and those of one number in their order.
fn in_order(values: List<(u32, Held)>) -> Result<Vec<(u32, Held)>, NoMemory>
    ensures { IfOk result (λ moved. with_entries [] moved.items ≡ with_entries [] values) }
{
    let mut values = values.into_vec();
    values.sort_by_key(|value| value.0)?;
    Ok(values)
}

/// The content of these values. Where their numbers ascend, none is moved.
pub(crate) fn contents_with(alloc: Global, values: List<(u32, Held)>) -> Result<Contents, NoMemory>
    ensures { IfOk result (λ contents. content_of contents ≡ content_with values) }
{
    let fields = NumberMap::from_entries(alloc, in_order(values)?)?;
    Ok(Contents {
        fields,
        kept: Recs::new(alloc),
    })
}
