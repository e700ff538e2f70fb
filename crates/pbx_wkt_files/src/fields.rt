// Fields as records.
ghost use Rattle.std.specs.Prelude.{◌≡◌, map, IfOk};
ghost use Rattle.pbx_wkt_files.specs.Rows.{label_number as label_number_of, kind_number as kind_number_of, kind_name as kind_name_of, row_field};
ghost use Rattle.pbx_wkt_files.specs.Rows.{beside_default, beside_options, beside_oneof};

use crate::options::options;
use crate::row::{Beside, FieldRow, Kind, Label};
use pbx_desc_records::{FieldDescriptorProto, Options};
use pbx_wire::{List, NoMemory, Recs, Text};
use std::alloc::Global;

/// The number of `FieldDescriptorProto.Label`.
fn label_number(label: Label) -> i32
    ensures { result ≡ label_number_of label }
{
    match label {
        Label::Optional => 1,
        Label::Required => 2,
        Label::Repeated => 3,
    }
}

/// The number of `FieldDescriptorProto.Type`.
fn kind_number(kind: Kind) -> i32
    ensures { result ≡ kind_number_of kind }
{
    match kind {
        Kind::Double => 1,
        Kind::Float => 2,
        Kind::Int64 => 3,
        Kind::Uint64 => 4,
        Kind::Int32 => 5,
        Kind::Bool => 8,
        Kind::String => 9,
        Kind::Message(_) => 11,
        Kind::Bytes => 12,
        Kind::Uint32 => 13,
        Kind::Enum(_) => 14,
    }
}

/// The name of the message or enum.
fn kind_name(alloc: Global, kind: Kind) -> Result<Option<Text>, NoMemory>
    ensures { IfOk result (λ name. name ≡ kind_name_of kind) }
{
    match kind {
        Kind::Message(name) | Kind::Enum(name) => Ok(Some(Text::from_str(alloc, name)?)),
        _ => Ok(None),
    }
}

fn default_value(alloc: Global, beside: Beside) -> Result<Option<Text>, NoMemory>
    ensures { IfOk result (λ text. text ≡ beside_default beside) }
{
    match beside {
        Beside::Default(text) => Ok(Some(Text::from_str(alloc, text)?)),
        _ => Ok(None),
    }
}

fn field_options(alloc: Global, beside: Beside) -> Result<Option<Options>, NoMemory>
    ensures { IfOk result (λ told. told ≡ beside_options beside) }
{
    match beside {
        Beside::Options(rows) => Ok(Some(options(alloc, rows)?)),
        _ => Ok(None),
    }
}

fn oneof_index(beside: Beside) -> Option<i32>
    ensures { result ≡ beside_oneof beside }
{
    match beside {
        Beside::Member(index) => Some(index),
        _ => None,
    }
}

fn field(alloc: Global, row: &FieldRow) -> Result<FieldDescriptorProto, NoMemory>
    ensures { IfOk result (λ field. field ≡ row_field row.now) }
{
    let FieldRow(number, name, json_name, label, kind, beside) = *row;
    Ok(FieldDescriptorProto {
        name: Some(Text::from_str(alloc, name)?),
        extendee: None,
        number: Some(number),
        label: Some(label_number(label)),
        kind: Some(kind_number(kind)),
        type_name: kind_name(alloc, kind)?,
        default_value: default_value(alloc, beside)?,
        options: field_options(alloc, beside)?,
        oneof_index: oneof_index(beside),
        json_name: Some(Text::from_str(alloc, json_name)?),
        proto3_optional: None,
        unknown: Recs::new(alloc),
    })
}

/// The fields of rows.
pub(crate) fn fields(
    alloc: Global,
    rows: &[FieldRow],
) -> Result<List<FieldDescriptorProto>, NoMemory>
    ensures { IfOk result (λ fields. fields ≡ map row_field rows.now) }
{
    let mut fields = List::with_capacity(alloc, rows.len())?;
    for row in rows {
        fields.add(field(alloc, row)?)?;
    }
    Ok(fields)
}
