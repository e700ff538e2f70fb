// Ranges of numbers, looked up in logarithmic time.
ghost use Rattle.std.specs.Prelude.{◌≡◌, ◌++◌, ℤ, Option as OptionOf, map, IfOk, OnOk};
ghost use Rattle.pbx_desc_records.specs.declared.message.ExtensionRange.{ExtensionRange as ExtensionRangeOf};
ghost use Rattle.pbx_desc_records.specs.declared.message.ReservedRange.{ReservedRange as ReservedRangeOf};
ghost use Rattle.pbx_link_definitions.specs.Ranges.{in_ranges, extension_ranges, all_ranges};
ghost use Rattle.pbx_link_definitions.specs.Spans.{span_range, span_of as span_of_range};

use pbx_desc_records::{DescriptorProto, ExtensionRange, ReservedRange};
use pbx_wire::NoMemory;
use std::alloc::Global;
use std::marker::Model;

/// The numbers from a start to an end, which is none of them.
#[derive(Clone, Copy)]
struct Span {
    start: i32,
    end: i32,
}

/// The numbers that are in one of several ranges. A look-up takes time logarithmic in their count.
#[derive(Drop)]
pub struct NumberRanges {
    // Starts ascend, and each span has the greatest end so far, so that the last span that starts at a number or below decides.
    spans: Vec<Span>,
}

impl Model for NumberRanges {
    ghost use Rattle.std.specs.Prelude.{List, map};
    ghost use Rattle.pbx_link_definitions.specs.Ranges.{Range};

    ghost Value = { List Range };

    ghost use Rattle.pbx_link_definitions.specs.Spans.{span_range, Rise};

    ghost view = { λ a. map span_range a.spans.items };

    ghost invariant = { λ a. Rise a.spans.items };
}

fn span_of(start: Option<i32>, end: Option<i32>) -> Span
    ensures { result ≡ span_of_range start end }
{
    let start = start.unwrap_or(0);
    Span {
        start,
        end: end.unwrap_or(start),
    }
}

fn add_extension_ranges(ranges: &[ExtensionRange], spans: &mut Vec<Span>) -> Result<(), NoMemory>
    ensures { OnOk result (spans.new.items ≡ spans.old.items ++ map (λ (r : ExtensionRangeOf). span_of_range r.start r.«end») ranges.now) }
{
    for range in ranges {
        spans.push(span_of(range.start, range.end))?;
    }
    Ok(())
}

fn add_reserved_ranges(ranges: &[ReservedRange], spans: &mut Vec<Span>) -> Result<(), NoMemory>
    ensures { OnOk result (spans.new.items ≡ spans.old.items ++ map (λ (r : ReservedRangeOf). span_of_range r.start r.«end») ranges.now) }
{
    for range in ranges {
        spans.push(span_of(range.start, range.end))?;
    }
    Ok(())
}

/// The numbers of the spans.
fn number_ranges(alloc: Global, mut spans: Vec<Span>) -> Result<NumberRanges, NoMemory>
    ensures { IfOk result (λ ranges. (number : OptionOf ℤ) → in_ranges ranges number ≡ in_ranges (map span_range spans.items) number) }
{
    spans.sort_unstable_by_key(|span| span.start);
    let mut rising = Vec::new(alloc);
    let mut end = i32::MIN;
    for span in &spans {
        end = end.max(span.end);
        rising.push(Span {
            start: span.start,
            end,
        })?;
    }
    Ok(NumberRanges { spans: rising })
}

impl NumberRanges {
    /// The numbers that the message leaves to extensions. The only error is want of memory.
    pub fn of_extensions(alloc: Global, message: &DescriptorProto) -> Result<NumberRanges, NoMemory>
        ensures { IfOk result (λ ranges. (number : OptionOf ℤ) → in_ranges ranges number ≡ in_ranges (extension_ranges message.now) number) }
    {
        let mut spans = Vec::new(alloc);
        add_extension_ranges(message.extension_range.as_slice(), &mut spans)?;
        number_ranges(alloc, spans)
    }

    /// The numbers that the message leaves to extensions or reserves. The only error is want of memory.
    pub fn of_message(alloc: Global, message: &DescriptorProto) -> Result<NumberRanges, NoMemory>
        ensures { IfOk result (λ ranges. (number : OptionOf ℤ) → in_ranges ranges number ≡ in_ranges (all_ranges message.now) number) }
    {
        let mut spans = Vec::new(alloc);
        add_extension_ranges(message.extension_range.as_slice(), &mut spans)?;
        add_reserved_ranges(message.reserved_range.as_slice(), &mut spans)?;
        number_ranges(alloc, spans)
    }

    /// Whether the number is there and in one of the ranges.
    pub fn contains(&self, number: Option<i32>) -> bool
        ensures { result ≡ in_ranges self.now number }
    {
        let Some(number) = number else {
            return false;
        };
        let spans = self.spans.as_slice();
        let count = spans.partition_point(|span| span.start <= number);
        0 < count && number < spans[count - 1].end
    }
}
