ghost use Rattle.std.specs.Prelude.{◌≡◌, None, map, IfOk, OnOk};
ghost use Rattle.pbx_content.specs.declared.shape.Kind.TheVariants as kind;
ghost use Rattle.pbx_content.specs.Content.{vals_of, pairs_of};
ghost use Rattle.pbx_content.specs.Sound.{AreElements, ArePairs};
ghost use Rattle.pbx_content_codec.specs.View.{content_of, val_of, pair_of};
ghost use Rattle.pbx_desc_shapes.specs.TypesShape.{types_shape};
ghost use Rattle.pbx_types.specs.Building.{Holds};
ghost use Rattle.pbx_types.specs.declared.tree.Value.{out-Value};
ghost use Rattle.pbx_types.specs.Content.{struct_content, list_content, value_content};
ghost use Rattle.pbx_types.specs.Layers.{value_values, value_message, value_pair, PutsMember, IsNamed};

use crate::tree::{ListValue, Struct, Value};
use crate::{HasContents, TextMap, kept_contents, put_list, put_pairs, record_bytes};
use pbx_content_codec::{Contents, Held, MapKey, Pair};
use pbx_desc_encoding::Message;
use pbx_desc_shapes::well_known_place as place;
use pbx_wire::{List, NoMemory, Text};
use std::alloc::Global;

impl HasContents for Struct {
    ghost TYPE_AT = { 4 };

    ghost content = { struct_content };

    const TYPE_AT: usize = place::STRUCT;

    fn to_contents(&self, alloc: Global) -> Result<Contents, NoMemory> {
        struct_contents(self, alloc)
    }
}

impl Message for Struct {
    ghost shape = { λ _. types_shape };

    ghost type_at = { λ _. 4 };

    ghost content = { struct_content };

    fn encode_to_vec(&self, alloc: Global) -> Result<Vec<u8>, NoMemory> {
        record_bytes(alloc, self)
    }
}

impl HasContents for Value {
    ghost TYPE_AT = { 6 };

    ghost content = { value_content };

    const TYPE_AT: usize = place::VALUE;

    fn to_contents(&self, alloc: Global) -> Result<Contents, NoMemory> {
        value_contents(self, alloc)
    }
}

impl Message for Value {
    ghost shape = { λ _. types_shape };

    ghost type_at = { λ _. 6 };

    ghost content = { value_content };

    fn encode_to_vec(&self, alloc: Global) -> Result<Vec<u8>, NoMemory> {
        record_bytes(alloc, self)
    }
}

impl HasContents for ListValue {
    ghost TYPE_AT = { 7 };

    ghost content = { list_content };

    const TYPE_AT: usize = place::LIST_VALUE;

    fn to_contents(&self, alloc: Global) -> Result<Contents, NoMemory> {
        list_contents(self, alloc)
    }
}

impl Message for ListValue {
    ghost shape = { λ _. types_shape };

    ghost type_at = { λ _. 7 };

    ghost content = { list_content };

    fn encode_to_vec(&self, alloc: Global) -> Result<Vec<u8>, NoMemory> {
        record_bytes(alloc, self)
    }
}

#[cycle(contents)]
fn struct_contents(record: &Struct, alloc: Global) -> Result<Contents, NoMemory>
    ensures { IfOk result (Holds 4 (struct_content «record».now)) }
{
    let mut contents = kept_contents(&record.unknown, &[1], alloc)?;
    put_pairs(&mut contents, 1, named_values(&record.fields, alloc)?)?;
    Ok(contents)
}

/// The values under their names, as the pairs of a map.
#[cycle(contents)]
fn named_values(fields: &TextMap<Value>, alloc: Global) -> Result<List<Pair>, NoMemory>
    ensures pairs { IfOk result (λ pairs. map pair_of pairs ≡ map value_pair fields.now) }
    ensures sound { OnOk result (ArePairs types_shape kind.String (kind.Message 6) (pairs_of (map value_pair fields.now))) }
{
    let mut pairs = List::new(alloc);
    for field in fields.as_slice() {
        let held = Held::Message(value_contents(&field.1, alloc)?);
        pairs.add(named(&field.0, held, alloc)?)?;
    }
    Ok(pairs)
}

/// Only the member with the greatest number is put in.
#[cycle(contents)]
fn value_contents(value: &Value, alloc: Global) -> Result<Contents, NoMemory>
    ensures { IfOk result (Holds 6 (value_content value.now)) }
{
    let mut contents = kept_contents(&value.unknown, &[1, 3, 4, 5, 6], alloc)?;
    if let Some(list) = &value.list_value {
        let held = Held::Message(list_contents(list, alloc)?);
        contents.put(6, held)?;
        return Ok(contents);
    }
    if let Some(fields) = &value.struct_value {
        let held = Held::Message(struct_contents(fields, alloc)?);
        contents.put(5, held)?;
        return Ok(contents);
    }
    put_scalar(&mut contents, value, alloc)?;
    Ok(contents)
}

#[cycle(contents)]
fn list_contents(record: &ListValue, alloc: Global) -> Result<Contents, NoMemory>
    ensures { IfOk result (Holds 7 (list_content «record».now)) }
{
    let mut contents = kept_contents(&record.unknown, &[1], alloc)?;
    put_list(&mut contents, 1, element_values(&record.values, alloc)?)?;
    Ok(contents)
}

/// The values of a list, each as a message.
#[cycle(contents)]
fn element_values(values: &List<Value>, alloc: Global) -> Result<List<Held>, NoMemory>
    ensures values { IfOk result (λ helds. map val_of helds ≡ map value_message values.now) }
    ensures sound { OnOk result (AreElements types_shape (kind.Message 6) (vals_of (map value_message values.now))) }
{
    let mut helds = List::with_capacity(alloc, values.len())?;
    for value in values.as_slice() {
        helds.add(Held::Message(value_contents(value, alloc)?))?;
    }
    Ok(helds)
}

/// A value under its name.
fn named(name: &Text, held: Held, alloc: Global) -> Result<Pair, NoMemory>
    ensures { IfOk result (λ pair. IsNamed name.now (val_of held) (pair_of pair)) }
{
    let key = MapKey::String(Text::from_str(alloc, name.as_str())?);
    Ok(Pair { key, held })
}

/// Puts the scalar with the greatest number in, if there is one.
fn put_scalar(contents: &mut Contents, value: &Value, alloc: Global) -> Result<(), NoMemory>
    requires no_list { (out-Value value.now).list_value ≡ None }
    requires no_struct { (out-Value value.now).struct_value ≡ None }
    ensures { OnOk result (PutsMember (value_values value.now) (content_of contents.old) (content_of contents.new)) }
{
    if let Some(truth) = value.bool_value {
        return contents.put(4, Held::Bool(truth));
    }
    if let Some(text) = &value.string_value {
        let copy = Text::from_str(alloc, text.as_str())?;
        return contents.put(3, Held::Text(copy));
    }
    if let Some(number) = value.null_value {
        return contents.put(1, Held::I32(number));
    }
    Ok(())
}
