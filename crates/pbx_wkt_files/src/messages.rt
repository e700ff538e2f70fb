// Messages as records.
ghost use Rattle.std.specs.Prelude.{◌≡◌, ◌++◌, map, option_map, IfOk, OnOk};
ghost use Rattle.pbx_wkt_files.specs.Rows.{rows_options, row_extension_range, row_reserved_range, named_oneof, row_message_with, row_message, row_top};

use crate::enums::enums;
use crate::fields::fields;
use crate::options::options;
use crate::row::{MessageRow, OptionRow, RangeRow, TopRow};
use pbx_desc_records::{
    DescriptorProto, ExtensionRange, OneofDescriptorProto, Options, ReservedRange,
};
use pbx_wire::{List, NoMemory, Recs, Text, Texts};
use std::alloc::Global;

fn extension_ranges(alloc: Global, rows: &[RangeRow]) -> Result<List<ExtensionRange>, NoMemory>
    ensures { IfOk result (λ ranges. ranges ≡ map row_extension_range rows.now) }
{
    let mut ranges = List::new(alloc);
    for row in rows {
        ranges.add(ExtensionRange {
            start: Some(row.0),
            end: Some(row.1),
            options: None,
            unknown: Recs::new(alloc),
        })?;
    }
    Ok(ranges)
}

fn reserved_ranges(alloc: Global, rows: &[RangeRow]) -> Result<List<ReservedRange>, NoMemory>
    ensures { IfOk result (λ ranges. ranges ≡ map row_reserved_range rows.now) }
{
    let mut ranges = List::new(alloc);
    for row in rows {
        ranges.add(ReservedRange {
            start: Some(row.0),
            end: Some(row.1),
            unknown: Recs::new(alloc),
        })?;
    }
    Ok(ranges)
}

fn oneof(alloc: Global, name: &str) -> Result<OneofDescriptorProto, NoMemory>
    ensures { IfOk result (λ oneof. oneof ≡ named_oneof name.now) }
{
    Ok(OneofDescriptorProto {
        name: Some(Text::from_str(alloc, name)?),
        options: None,
        unknown: Recs::new(alloc),
    })
}

fn oneofs(alloc: Global, names: &[&'static str]) -> Result<List<OneofDescriptorProto>, NoMemory>
    ensures { IfOk result (λ oneofs. oneofs ≡ map (λ name. named_oneof name.now) names.now) }
{
    let mut oneofs = List::new(alloc);
    for name in names {
        oneofs.add(oneof(alloc, name)?)?;
    }
    Ok(oneofs)
}

fn message_options(
    alloc: Global,
    rows: Option<&'static [OptionRow]>,
) -> Result<Option<Options>, NoMemory>
    ensures { IfOk result (λ told. told ≡ option_map (λ told. rows_options told.now) rows.entry) }
{
    match rows {
        Some(rows) => Ok(Some(options(alloc, rows)?)),
        None => Ok(None),
    }
}

/// The message of the row, with these messages in it.
fn message_with(
    alloc: Global,
    row: &MessageRow,
    nested_type: List<DescriptorProto>,
) -> Result<DescriptorProto, NoMemory>
    ensures { IfOk result (λ message. message ≡ row_message_with row.now nested_type) }
{
    Ok(DescriptorProto {
        name: Some(Text::from_str(alloc, row.0)?),
        field: fields(alloc, row.1)?,
        nested_type,
        enum_type: enums(alloc, row.2)?,
        extension_range: extension_ranges(alloc, row.3.1)?,
        extension: List::new(alloc),
        options: message_options(alloc, row.3.3)?,
        oneof_decl: oneofs(alloc, row.3.0)?,
        reserved_range: reserved_ranges(alloc, row.3.2)?,
        reserved_name: Texts::new(alloc),
        unknown: Recs::new(alloc),
    })
}

fn nested(alloc: Global, rows: &[MessageRow]) -> Result<List<DescriptorProto>, NoMemory>
    ensures { IfOk result (λ messages. messages ≡ map row_message rows.now) }
{
    let mut messages = List::with_capacity(alloc, rows.len())?;
    for row in rows {
        messages.add(message_with(alloc, row, List::new(alloc))?)?;
    }
    Ok(messages)
}

/// Adds the messages of rows.
pub(crate) fn add_messages(
    alloc: Global,
    rows: &[TopRow],
    messages: &mut List<DescriptorProto>,
) -> Result<(), NoMemory>
    ensures { OnOk result (messages.new ≡ messages.old ++ map row_top rows.now) }
{
    for row in rows {
        messages.add(message_with(alloc, &row.0, nested(alloc, row.1)?)?)?;
    }
    Ok(())
}
