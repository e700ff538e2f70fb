// Ranges sorted by start, in which those that have numbers together are found.
ghost use Rattle.std.specs.Prelude.{◌≡◌, map, IfOk};
ghost use Rattle.std.specs.List.{enumerate_from};
ghost use Rattle.std.specs.List.Sorted.{IsPermutation};
ghost use Rattle.pbx_link_definitions.specs.Found.{IsIndex, is_earlier};
ghost use Rattle.pbx_link_rules_record.specs.RangeRules.{share_number};
ghost use Rattle.pbx_link_rules_record.specs.Spans.{span_of, IsSortedByStart, IsSharedIn};

use crate::ranges::NumberRange;
use pbx_wire::NoMemory;
use std::alloc::Global;

/// A range, and which it is of its list. Where it has no end, its end is its start, so that it has no number either way.
#[derive(Drop)]
pub(crate) struct Span {
    pub(crate) start: i64,
    pub(crate) end: i64,
    index: usize,
}

fn indexed(index: usize, range: &NumberRange) -> Span
    ensures { result ≡ span_of (index, range.now) }
{
    Span {
        start: range.start(),
        end: range.end_or_start(),
        index,
    }
}

/// The ranges with their indexes.
fn spans(alloc: Global, ranges: &[NumberRange]) -> Result<Vec<Span>, NoMemory>
    ensures { IfOk result (λ v. v.items ≡ map span_of (enumerate_from 0 ranges.now)) }
{
    let mut spans = Vec::new(alloc);
    for (index, range) in ranges.iter().enumerate() {
        spans.push(indexed(index, range))?;
    }
    Ok(spans)
}

fn sort_by_start(spans: &mut Vec<Span>)
    ensures permutation { IsPermutation spans.old.items spans.new.items }
    ensures sorted { IsSortedByStart spans.new.items }
{
    spans.sort_unstable_by_key(|span| span.start);
}

/// The ranges with their indexes, sorted by start. The only error is want of memory.
pub(crate) fn sorted_spans(alloc: Global, ranges: &[NumberRange]) -> Result<Vec<Span>, NoMemory>
    ensures permutation { IfOk result (λ v. IsPermutation (map span_of (enumerate_from 0 ranges.now)) v.items) }
    ensures sorted { IfOk result (λ v. IsSortedByStart v.items) }
{
    let mut spans = spans(alloc, ranges)?;
    sort_by_start(&mut spans);
    Ok(spans)
}

/// The later in its list of two spans that have a number together, of spans that are sorted by start.
fn shared(spans: &[Span]) -> Option<usize>
    ensures { IsSharedIn spans.now result }
{
    let [first, others @ ..] = spans else {
        return None;
    };
    let mut furthest = first;
    for span in others {
        if span.start < span.end && span.start < furthest.end {
            return Some(span.index.max(furthest.index));
        }
        if furthest.end < span.end {
            furthest = span;
        }
    }
    None
}

/// An index of a range that has a number with an earlier one. The only error is want of memory.
pub(crate) fn overlapping(alloc: Global, ranges: &[NumberRange]) -> Result<Option<usize>, NoMemory>
    ensures { IfOk result (IsIndex (is_earlier share_number ranges.now) ranges.now) }
{
    let spans = sorted_spans(alloc, ranges)?;
    Ok(shared(spans.as_slice()))
}
