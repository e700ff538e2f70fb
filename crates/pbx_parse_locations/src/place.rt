//! One location, and the paths of locations.

ghost use Rattle.std.specs.Prelude.{◌≡◌, ◌+◌, ◌++◌, [], ◌∷◌, pos, IfOk, OnOk};
ghost use Rattle.pbx_parse_locations.specs.Locations.{span_of, place, part, element as element_of, block};

use crate::tag::NAME;
use pbx_desc_records::Location;
use pbx_parse_token::Span;
use pbx_wire::{List, NoMemory};
use std::alloc::Global;

/// A line, a column or an index, as locations have it. Where it does not fit, which takes a source of 2 GiB,
/// that is want of memory.
pub fn number(n: u32) -> Result<i32, NoMemory>
    ensures { IfOk result (λ number. number ≡ pos n) }
{
    i32::try_from(n).map_err(|_| NoMemory)
}

/// The index of the next element, refused like a number that does not fit.
pub fn next(index: u32) -> Result<u32, NoMemory>
    ensures { IfOk result (λ next. next ≡ index + 1) }
{
    index.checked_add(1).ok_or(NoMemory)
}

fn append(numbers: &mut List<i32>, more: &[i32]) -> Result<(), NoMemory>
    ensures { OnOk result (numbers.new ≡ numbers.old ++ more.now) }
{
    for number in more {
        numbers.add(*number)?;
    }
    Ok(())
}

fn joined(alloc: Global, path: &List<i32>, more: &[i32]) -> Result<List<i32>, NoMemory>
    ensures { IfOk result (λ all. all ≡ path.now ++ more.now) }
{
    let mut all = List::with_capacity(alloc, path.len().saturating_add(more.len()))?;
    append(&mut all, path.as_slice())?;
    append(&mut all, more)?;
    Ok(all)
}

/// The path of an element of the repeated field `field`.
pub fn element(
    alloc: Global,
    path: &List<i32>,
    field: u32,
    index: u32,
) -> Result<List<i32>, NoMemory>
    ensures { IfOk result (λ all. all ≡ element_of path.now field index) }
{
    joined(alloc, path, &[number(field)?, number(index)?])
}

fn span(alloc: Global, from: Span, to: Span) -> Result<List<i32>, NoMemory>
    ensures { IfOk result (λ span. span ≡ span_of from to) }
{
    let mut span = List::with_capacity(alloc, 4)?;
    span.add(number(from.line)?)?;
    span.add(number(from.from)?)?;
    if from.line != to.line {
        span.add(number(to.line)?)?;
    }
    span.add(number(to.to)?)?;
    Ok(span)
}

fn add_location(
    alloc: Global,
    out: &mut List<Location>,
    path: List<i32>,
    from: Span,
    to: Span,
) -> Result<(), NoMemory>
    ensures { OnOk result (out.new ≡ out.old ++ place path from to ∷ []) }
{
    let span = span(alloc, from, to)?;
    let mut location = Location::new(alloc);
    location.path = path;
    location.span = span;
    out.add(location)
}

/// Adds what has the path, from one token to another.
pub fn add(
    alloc: Global,
    out: &mut List<Location>,
    path: &List<i32>,
    from: Span,
    to: Span,
) -> Result<(), NoMemory>
    ensures { OnOk result (out.new ≡ out.old ++ place path.now from to ∷ []) }
{
    add_location(alloc, out, joined(alloc, path, &[])?, from, to)
}

/// Adds the field `field` of what has the path.
pub fn add_part(
    alloc: Global,
    out: &mut List<Location>,
    path: &List<i32>,
    field: u32,
    from: Span,
    to: Span,
) -> Result<(), NoMemory>
    ensures { OnOk result (out.new ≡ out.old ++ part path.now field from to ∷ []) }
{
    add_location(
        alloc,
        out,
        joined(alloc, path, &[number(field)?])?,
        from,
        to,
    )
}

/// The same of one token.
pub fn add_token(
    alloc: Global,
    out: &mut List<Location>,
    path: &List<i32>,
    field: u32,
    token: Span,
) -> Result<(), NoMemory>
    ensures { OnOk result (out.new ≡ out.old ++ part path.now field token token ∷ []) }
{
    add_part(alloc, out, path, field, token, token)
}

/// Adds what has a keyword, a name and a block, and its name.
pub fn add_block(
    alloc: Global,
    out: &mut List<Location>,
    path: &List<i32>,
    keyword: Span,
    name: Span,
    close: Span,
) -> Result<(), NoMemory>
    ensures { OnOk result (out.new ≡ out.old ++ block path.now keyword name close) }
{
    add(alloc, out, path, keyword, close)?;
    add_token(alloc, out, path, NAME, name)
}
