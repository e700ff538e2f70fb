// Enums as records.
ghost use Rattle.std.specs.Prelude.{◌≡◌, map, IfOk};
ghost use Rattle.pbx_wkt_files.specs.Rows.{row_value, row_enum};

use crate::row::{EnumRow, ValueRow};
use pbx_desc_records::{EnumDescriptorProto, EnumValueDescriptorProto};
use pbx_wire::{List, NoMemory, Recs, Text, Texts};
use std::alloc::Global;

fn value(alloc: Global, row: &ValueRow) -> Result<EnumValueDescriptorProto, NoMemory>
    ensures { IfOk result (λ value. value ≡ row_value row.now) }
{
    Ok(EnumValueDescriptorProto {
        name: Some(Text::from_str(alloc, row.0)?),
        number: Some(row.1),
        options: None,
        unknown: Recs::new(alloc),
    })
}

fn values(alloc: Global, rows: &[ValueRow]) -> Result<List<EnumValueDescriptorProto>, NoMemory>
    ensures { IfOk result (λ values. values ≡ map row_value rows.now) }
{
    let mut values = List::with_capacity(alloc, rows.len())?;
    for row in rows {
        values.add(value(alloc, row)?)?;
    }
    Ok(values)
}

fn enumeration(alloc: Global, row: &EnumRow) -> Result<EnumDescriptorProto, NoMemory>
    ensures { IfOk result (λ enumeration. enumeration ≡ row_enum row.now) }
{
    Ok(EnumDescriptorProto {
        name: Some(Text::from_str(alloc, row.0)?),
        value: values(alloc, row.1)?,
        options: None,
        reserved_range: List::new(alloc),
        reserved_name: Texts::new(alloc),
        unknown: Recs::new(alloc),
    })
}

/// The enums of rows.
pub(crate) fn enums(alloc: Global, rows: &[EnumRow]) -> Result<List<EnumDescriptorProto>, NoMemory>
    ensures { IfOk result (λ enums. enums ≡ map row_enum rows.now) }
{
    let mut enums = List::with_capacity(alloc, rows.len())?;
    for row in rows {
        enums.add(enumeration(alloc, row)?)?;
    }
    Ok(enums)
}
