//! Asks of `pbx_link_names`: what is there after items are added, or after they were refused for want of memory, which
//! `rt try --fail-alloc 1..` makes of each allocation in turn. Items are added all or none, so the answer is `all added`, or `none added`.
//!
//! `names values` asks of values under names, and `names numbers` of numbers under names.

use crate::told::Told;
use pbx_link_names::{NameMap, NumberedNames};
use pbx_wire::{List, NoMemory, Text};
use std::alloc::Global;

static BEFORE: [(&str, i32); 2] = [("a", 1), ("b.c", 2)];

static MORE: [(&str, i32); 3] = [("b.c", 7), ("d", 3), ("d", 4)];

fn items(alloc: Global, rows: &[(&str, i32)]) -> Result<List<(Text, i32)>, NoMemory> {
    let mut items = List::new(alloc);
    for (name, number) in rows {
        items.add((Text::from_str(alloc, name)?, *number))?;
    }
    Ok(items)
}

/// The words for whether all items were added, and whether what is there is as that says.
fn answer_of(holds: bool, added: bool) -> &'static str {
    match (holds, added) {
        (true, true) => "all added",
        (true, false) => "none added",
        (false, _) => "some added",
    }
}

fn values(alloc: Global) -> Result<&'static str, NoMemory> {
    let before = items(alloc, &BEFORE)?;
    let more = items(alloc, &MORE)?;
    let mut map = NameMap::new(alloc);
    map.add_all(alloc, before.as_slice())?;
    let added = map.add_all(alloc, more.as_slice()).is_ok();
    let kept = map.get("a").copied() == Some(1) && map.get("b.c").copied() == Some(2);
    let third = if added { Some(3) } else { None };
    Ok(answer_of(kept && map.get("d").copied() == third, added))
}

fn numbers(alloc: Global) -> Result<&'static str, NoMemory> {
    let before = items(alloc, &BEFORE)?;
    let more = items(alloc, &MORE)?;
    let mut names = NumberedNames::new(alloc);
    names.add_all(alloc, before.as_slice())?;
    let added = names.add_all(alloc, more.as_slice()).is_ok();
    let kept = names.contains("b.c", 2) && !names.contains("a", 2);
    let second = names.contains("b.c", 7) && names.contains("d", 4);
    let some = names.contains("b.c", 7) || names.contains("d", 3) || names.contains("d", 4);
    Ok(answer_of(kept && second == added && some == added, added))
}

/// Tells what the word asks for.
pub fn answer(alloc: Global, told: &mut Told, word: &str) {
    let answer = match word {
        "values" => values(alloc),
        "numbers" => numbers(alloc),
        _ => Ok("no such word"),
    };
    match answer {
        Ok(text) => told.add(text),
        Err(_) => told.run_short(),
    }
}
