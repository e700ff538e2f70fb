// The numbers of some ranges, for look-ups.
ghost use Rattle.std.specs.Prelude.{◌≡◌, ◌<◌, ◌≤◌, length, slice_index_or, int_le, true, false, Some, ℤ, IfOk};
ghost use Rattle.std.specs.List.Sorted.{IsPartitionPoint};
ghost use Rattle.pbx_link_definitions.specs.Ranges.{in_ranges};
ghost use Rattle.pbx_link_rules_record.specs.declared.spans.Span.{Span as SpanOf};
ghost use Rattle.pbx_link_rules_record.specs.Spans.{AreSteps, Rise};
ghost use Rattle.pbx_link_rules_record.specs.Sets.{have_number};

use crate::ranges::NumberRange;
use crate::spans::{Span, sorted_spans};
use pbx_wire::NoMemory;
use std::alloc::Global;
use std::marker::Model;

/// The start of a range, and the greatest end of the ranges that start no later.
#[derive(Drop)]
struct Step {
    start: i64,
    reach: i64,
}

/// The end of the first span.
fn first_end(spans: &[Span]) -> i64
    ensures { (s : SpanOf) → 0 < length spans.now → result ≡ (slice_index_or spans.now 0 s).«end» }
{
    match spans {
        [first, ..] => first.end,
        [] => 0,
    }
}

/// A step for each span, of spans that are sorted by start.
fn steps(alloc: Global, spans: &[Span]) -> Result<Vec<Step>, NoMemory>
    ensures { IfOk result (λ v. AreSteps spans.now v.items) }
{
    let mut steps = Vec::new(alloc);
    let mut reach = first_end(spans);
    for span in spans {
        reach = reach.max(span.end);
        steps.push(Step {
            start: span.start,
            reach,
        })?;
    }
    Ok(steps)
}

/// Whether the range starts at the number or before it.
fn starts_by(step: &Step, number: i64) -> bool
    ensures { result ≡ int_le step.now.start number }
{
    step.start <= number
}

/// How many of the ranges start at the number or before it.
fn started(steps: &[Step], number: i64) -> usize
    ensures bound { result ≤ length steps.now }
    ensures parts { Rise steps.now → IsPartitionPoint (λ t. int_le t.start number ≡ true) (λ t. int_le t.start number ≡ false) steps.now result }
{
    steps.partition_point(|step| starts_by(step, number))
}

/// The numbers of some ranges. It takes the logarithm of their count to look one up.
#[derive(Drop)]
pub(crate) struct NumberSet {
    steps: Vec<Step>,
}

impl Model for NumberSet {
    ghost use Rattle.std.specs.Prelude.{List};
    ghost use Rattle.pbx_link_rules_record.specs.declared.number_set.Step.{Step as StepOf};
    ghost use Rattle.pbx_link_rules_record.specs.Spans.{Rise};

    ghost Value = { List StepOf };

    ghost view = { λ s. s.steps.items };

    ghost invariant = { λ s. Rise s.steps.items };
}

impl NumberSet {
    /// The numbers of the ranges. The only error is want of memory.
    pub(crate) fn new(alloc: Global, ranges: &[NumberRange]) -> Result<NumberSet, NoMemory>
        ensures { IfOk result (λ set. (z : ℤ) → have_number set z ≡ in_ranges ranges.now (Some z)) }
    {
        let spans = sorted_spans(alloc, ranges)?;
        Ok(NumberSet {
            steps: steps(alloc, spans.as_slice())?,
        })
    }

    /// Whether the number is one of them.
    pub(crate) fn contains(&self, number: i64) -> bool
        ensures { result ≡ have_number self.now number }
    {
        let steps = self.steps.as_slice();
        let started = started(steps, number);
        0 < started && number < steps[started - 1].reach
    }
}
