ghost use Rattle.std.specs.Prelude.{◌≡◌, ◌++◌, map, option_map, IfOk, OnOk};
ghost use Rattle.pbx_desc_decodable.specs.Rows.{row_field, row_type, row_value, row_enum};
ghost use Rattle.pbx_desc_decodable.specs.Schema.{options_schema as options_schema_of};

use crate::rows::{
    enum_rows, feature_types, file_option_types, file_types, member_types, option_types,
};
use crate::table::{EnumRow, FieldRow, Form, TypeRow, ValueRow};
use pbx_content::{
    Cardinality, EnumShape, EnumValueShape, FieldShape, MessageShape, Schema, SchemaError, Shape,
};
use pbx_wire::{List, NoMemory, Text};
use std::alloc::Global;

/// The place of `google.protobuf.FileDescriptorSet` in the schema.
pub(crate) const FILE_SET: usize = 0;

fn text_of(alloc: Global, text: Option<&'static str>) -> Result<Option<Text>, NoMemory>
    ensures { IfOk result (λ own. own ≡ option_map (λ t. t.now) text.entry) }
{
    match text {
        Some(text) => Ok(Some(Text::from_str(alloc, text)?)),
        None => Ok(None),
    }
}

fn field(alloc: Global, row: &FieldRow) -> Result<FieldShape, NoMemory>
    ensures { IfOk result (λ field. field ≡ row_field row.now) }
{
    let FieldRow(number, name, json_name, kind, form, default) = *row;
    let (cardinality, presence, packed) = match form {
        Form::One => (Cardinality::Singular, true, false),
        Form::Many => (Cardinality::Repeated, false, false),
        Form::Packed => (Cardinality::Repeated, false, true),
    };
    Ok(FieldShape {
        number,
        name: Text::from_str(alloc, name)?,
        json_name: Text::from_str(alloc, json_name)?,
        is_extension: false,
        kind,
        cardinality,
        presence,
        oneof: None,
        packed,
        default: text_of(alloc, default)?,
        entry: None,
    })
}

fn message(alloc: Global, row: &TypeRow) -> Result<MessageShape, NoMemory>
    ensures { IfOk result (λ message. message ≡ row_type row.now) }
{
    let TypeRow(full_name, rows) = *row;
    let mut fields = List::new(alloc);
    for row in rows {
        fields.add(field(alloc, row)?)?;
    }
    Ok(MessageShape {
        full_name: Text::from_str(alloc, full_name)?,
        fields,
        keeps_order: false,
        proto3: false,
    })
}

fn add_messages(
    alloc: Global,
    rows: &[TypeRow],
    messages: &mut List<MessageShape>,
) -> Result<(), NoMemory>
    ensures { OnOk result (messages.new ≡ messages.old ++ map row_type rows.now) }
{
    for row in rows {
        messages.add(message(alloc, row)?)?;
    }
    Ok(())
}

fn messages(alloc: Global) -> Result<List<MessageShape>, NoMemory>
    ensures { IfOk result (λ messages. messages ≡ options_schema_of.messages) }
{
    let mut messages = List::new(alloc);
    add_messages(alloc, file_types(), &mut messages)?;
    add_messages(alloc, member_types(), &mut messages)?;
    add_messages(alloc, file_option_types(), &mut messages)?;
    add_messages(alloc, option_types(), &mut messages)?;
    add_messages(alloc, feature_types(), &mut messages)?;
    Ok(messages)
}

fn value(alloc: Global, row: &ValueRow) -> Result<EnumValueShape, NoMemory>
    ensures { IfOk result (λ value. value ≡ row_value row.now) }
{
    let ValueRow(name, number) = *row;
    Ok(EnumValueShape {
        name: Text::from_str(alloc, name)?,
        number,
    })
}

fn enumeration(alloc: Global, row: &EnumRow) -> Result<EnumShape, NoMemory>
    ensures { IfOk result (λ enumeration. enumeration ≡ row_enum row.now) }
{
    let EnumRow(full_name, rows) = *row;
    let mut values = List::new(alloc);
    for row in rows {
        values.add(value(alloc, row)?)?;
    }
    Ok(EnumShape {
        full_name: Text::from_str(alloc, full_name)?,
        values,
    })
}

fn enums(alloc: Global) -> Result<List<EnumShape>, NoMemory>
    ensures { IfOk result (λ enums. enums ≡ options_schema_of.enums) }
{
    let rows = enum_rows();
    let mut enums = List::new(alloc);
    for row in rows {
        enums.add(enumeration(alloc, row)?)?;
    }
    Ok(enums)
}

/// The schema of `google/protobuf/descriptor.proto` without the field `source_code_info` of a file, below which there are
/// no options. The only error is want of memory.
pub(crate) fn options_schema(alloc: Global) -> Result<Schema, NoMemory>
    ensures { IfOk result (λ schema. schema ≡ options_schema_of) }
{
    let shape = Shape {
        messages: messages(alloc)?,
        enums: enums(alloc)?,
    };
    match Schema::new(alloc, shape) {
        Ok(schema) => Ok(schema),
        Err(SchemaError::NoMemory(_)) => Err(NoMemory),
        Err(SchemaError::Improper(_)) => unreachable!(),
    }
}
