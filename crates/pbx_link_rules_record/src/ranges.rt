// Ranges of numbers that stand in records of three sorts.
ghost use Rattle.std.specs.Prelude.{◌≡◌, ◌++◌, ◌+ℤ◌, pos, map, option_map, int_lt, IfOk, OnOk};
ghost use Rattle.pbx_link_definitions.specs.Ranges.{all_ranges};
ghost use Rattle.pbx_link_definitions.specs.Says.{signed_or_zero};
ghost use Rattle.pbx_link_rules_record.specs.Spans.{end_or};
ghost use Rattle.pbx_link_rules_record.specs.RangeRules.{enum_range, is_bad_range as is_bad_range_of, is_empty_range as is_empty_range_of};

use pbx_desc_records::{
    DescriptorProto, EnumDescriptorProto, EnumReservedRange, ExtensionRange, ReservedRange,
};
use pbx_wire::{List, NoMemory};
use std::alloc::Global;
use std::marker::Model;

/// A range of numbers: its start, and its end, if it has one, which is no part of it.
#[derive(Drop)]
pub(crate) struct NumberRange {
    start: i64,
    end: Option<i64>,
}

impl Model for NumberRange {
    ghost use Rattle.pbx_link_definitions.specs.Ranges.{Range};

    ghost Value = { Range };

    ghost view = { λ r. record { start = r.start; «end» = r.end } };
}

impl NumberRange {
    /// The first number, if there is one.
    pub(crate) fn start(&self) -> i64
        ensures { result ≡ self.now.start }
    {
        self.start
    }

    /// The number behind the last one; the start where the range has no end.
    pub(crate) fn end_or_start(&self) -> i64
        ensures { result ≡ end_or self.now.start self.now.«end» }
    {
        match self.end {
            Some(end) => end,
            None => self.start,
        }
    }

    /// Whether there is no number in it.
    pub(crate) fn is_empty(&self) -> bool
        ensures { result ≡ is_empty_range_of self.now }
    {
        match self.end {
            Some(end) => end <= self.start,
            None => true,
        }
    }

    /// Whether it is no range of field numbers: empty, or with numbers below 1 or above 536,870,911.
    pub(crate) fn is_bad(&self) -> bool
        ensures { result ≡ is_bad_range_of self.now }
    {
        match self.end {
            Some(end) => self.start < 1 || 536870912 < end || end <= self.start,
            None => true,
        }
    }
}

/// A record that stands for a range.
trait HasRange {
    ghost use Rattle.pbx_link_definitions.specs.Ranges.{Range};

    ghost range: { Self → Range };

    fn range(&self) -> NumberRange
        ensures { result ≡ range self.now };
}

fn start_of(number: Option<i32>) -> i64
    ensures { result ≡ signed_or_zero number }
{
    match number {
        Some(number) => i64::from(number),
        None => 0,
    }
}

fn end_of(number: Option<i32>) -> Option<i64>
    ensures { result ≡ number }
{
    match number {
        Some(number) => Some(i64::from(number)),
        None => None,
    }
}

/// The number behind the last one.
fn end_behind(last: Option<i32>) -> Option<i64>
    ensures { result ≡ option_map (λ z. z +ℤ pos 1) last }
{
    match last {
        Some(last) => Some(i64::from(last) + 1),
        None => None,
    }
}

impl HasRange for ExtensionRange {
    ghost range = { λ r. record { start = signed_or_zero r.start; «end» = r.«end» } };

    fn range(&self) -> NumberRange {
        NumberRange {
            start: start_of(self.start),
            end: end_of(self.end),
        }
    }
}

impl HasRange for ReservedRange {
    ghost range = { λ r. record { start = signed_or_zero r.start; «end» = r.«end» } };

    fn range(&self) -> NumberRange {
        NumberRange {
            start: start_of(self.start),
            end: end_of(self.end),
        }
    }
}

impl HasRange for EnumReservedRange {
    ghost range = { enum_range };

    fn range(&self) -> NumberRange {
        NumberRange {
            start: start_of(self.start),
            end: end_behind(self.end),
        }
    }
}

fn add_ranges<T: HasRange>(items: &[T], ranges: &mut List<NumberRange>) -> Result<(), NoMemory>
    ensures { OnOk result (ranges.new ≡ ranges.old ++ map T.range items.now) }
{
    for item in items {
        ranges.add(item.range())?;
    }
    Ok(())
}

/// The extension ranges of a message and then its reserved ranges. The only error is want of memory.
pub(crate) fn message_ranges(
    alloc: Global,
    message: &DescriptorProto,
) -> Result<List<NumberRange>, NoMemory>
    ensures { IfOk result (λ ranges. ranges ≡ all_ranges message.now) }
{
    let mut ranges = List::new(alloc);
    add_ranges(message.extension_range.as_slice(), &mut ranges)?;
    add_ranges(message.reserved_range.as_slice(), &mut ranges)?;
    Ok(ranges)
}

/// The ranges that an enum reserves. The only error is want of memory.
pub(crate) fn enum_ranges(
    alloc: Global,
    declared: &EnumDescriptorProto,
) -> Result<List<NumberRange>, NoMemory>
    ensures { IfOk result (λ ranges. ranges ≡ map enum_range declared.now.reserved_range) }
{
    let mut ranges = List::new(alloc);
    add_ranges(declared.reserved_range.as_slice(), &mut ranges)?;
    Ok(ranges)
}
