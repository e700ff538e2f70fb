ghost use Rattle.std.specs.Prelude.{◌≡◌, ◌^◌, ◌-◌, min, map};
ghost use Rattle.pbx_wire.specs.Text.{depth as group_depth, depth_of as group_depth_of};
ghost use Rattle.pbx_content.specs.Content.{vals_of, pairs_of};
ghost use Rattle.pbx_content.specs.Sound.{depth as depth_of, fields_depth as fields_depth_of, val_depth, vals_depth, pairs_depth as pairs_depth_of};
ghost use Rattle.pbx_content_codec.specs.View.{val_of, content_of, entry_of, pair_of, fields_in};

use crate::contents::{Contents, Held, Pair};
use pbx_content_map::NumberMap;
use pbx_wire::{List, Rec, Recs};

/// How many levels of messages below the top the stack is given, whatever levels a caller allows: each takes that of a few calls.
pub(crate) const DEEPEST: u32 = 1024;

/// The levels of groups of a record, or 4,294,967,295 where there are more.
#[cycle(groups)]
fn rec_depth(rec: &Rec) -> u32
    ensures { result ≡ min (group_depth rec.now) (2 ^ 32 - 1) }
{
    match rec {
        Rec::Group(_, inner) => recs_depth(inner).saturating_add(1),
        Rec::Varint(_, _) | Rec::Fixed64(_, _) | Rec::Bytes(_, _) | Rec::Fixed32(_, _) => 0,
    }
}

/// The deepest of the records.
#[cycle(groups)]
fn recs_depth(recs: &Recs) -> u32
    ensures { result ≡ min (group_depth_of recs.now) (2 ^ 32 - 1) }
{
    let mut deepest = 0;
    for rec in recs.as_slice() {
        deepest = rec_depth(rec).max(deepest);
    }
    deepest
}

/// The levels of a value.
#[cycle(levels)]
fn held_depth(held: &Held) -> u32
    ensures { result ≡ min (val_depth (val_of held.now)) (2 ^ 32 - 1) }
{
    match held {
        Held::Message(contents) => depth(contents).saturating_add(1),
        Held::Many(many) => many_depth(many),
        Held::Pairs(pairs) => pairs_depth(pairs),
        _ => 0,
    }
}

/// The deepest of the values of a list.
#[cycle(levels)]
fn many_depth(many: &List<Held>) -> u32
    ensures { result ≡ min (vals_depth (vals_of (map val_of many.now))) (2 ^ 32 - 1) }
{
    let mut deepest = 0;
    for held in many.as_slice() {
        deepest = held_depth(held).max(deepest);
    }
    deepest
}

/// The deepest of the entries of a map, each of which is one level.
#[cycle(levels)]
fn pairs_depth(pairs: &List<Pair>) -> u32
    ensures { result ≡ min (pairs_depth_of (pairs_of (map pair_of pairs.now))) (2 ^ 32 - 1) }
{
    let mut deepest = 0;
    for pair in pairs.as_slice() {
        deepest = held_depth(&pair.held).saturating_add(1).max(deepest);
    }
    deepest
}

/// The deepest of the fields.
#[cycle(levels)]
fn fields_depth(fields: &NumberMap<Held>) -> u32
    ensures { result ≡ min (fields_depth_of (fields_in (map entry_of fields.now))) (2 ^ 32 - 1) }
{
    let mut deepest = 0;
    for field in fields.as_slice() {
        deepest = held_depth(&field.1).max(deepest);
    }
    deepest
}

/// The levels below the top, or 4,294,967,295 where there are more. It calls itself once a level, so a tree that is
/// deeper than the stack has room for is not to be asked.
#[cycle(levels)]
pub fn depth(contents: &Contents) -> u32
    ensures { result ≡ min (depth_of (content_of contents.now)) (2 ^ 32 - 1) }
{
    fields_depth(&contents.fields).max(recs_depth(&contents.kept))
}
