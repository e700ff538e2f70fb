// The built-in files as records.
ghost use Rattle.std.specs.Prelude.{◌≡◌, ◌<◌, ◌++◌, map, length, option_map, slice_get, IfSome, IfOk, OnOk, Some};
ghost use Rattle.pbx_desc_records.specs.declared.file.FileDescriptorProto.{FileDescriptorProto as FileRecord};
ghost use Rattle.pbx_wkt_files.specs.Records.{top_record, file_record};
ghost use Rattle.pbx_wkt_files.specs.Files.{descriptor_file, wkt_files, wkt_file_named};
ghost use Rattle.pbx_wkt_files.specs.Rows.{row_top, row_file, row_file_with};

use crate::enums::enums;
use crate::messages::add_messages;
use crate::options::options;
use crate::row::FileRow;
use crate::rows::{
    any_row, api_row, descriptor_features_rows, descriptor_field_options_rows,
    descriptor_file_options_rows, descriptor_files_rows, descriptor_members_rows, descriptor_row,
    duration_row, empty_row, field_mask_row, plugin_row, source_context_row, struct_row,
    timestamp_row, type_row, wrappers_row,
};
use pbx_desc_records::{DescriptorProto, FileDescriptorProto};
use pbx_wire::{List, NoMemory, Recs, Text, Texts};
use std::alloc::Global;

fn texts(alloc: Global, rows: &[&'static str]) -> Result<Texts, NoMemory>
    ensures { IfOk result (λ texts. texts ≡ map (λ text. text.now) rows.now) }
{
    let mut texts = Texts::new(alloc);
    for row in rows {
        texts.add(Text::from_str(alloc, row)?)?;
    }
    Ok(texts)
}

fn syntax(alloc: Global, row: Option<&'static str>) -> Result<Option<Text>, NoMemory>
    ensures { IfOk result (λ syntax. syntax ≡ option_map (λ text. text.now) row.entry) }
{
    match row {
        Some(text) => Ok(Some(Text::from_str(alloc, text)?)),
        None => Ok(None),
    }
}

/// The file of the row, with these messages.
fn file_with(
    alloc: Global,
    row: &FileRow,
    message_type: List<DescriptorProto>,
) -> Result<FileDescriptorProto, NoMemory>
    ensures { IfOk result (λ file. file ≡ row_file_with row.now message_type) }
{
    Ok(FileDescriptorProto {
        name: Some(Text::from_str(alloc, row.name)?),
        package: Some(Text::from_str(alloc, row.package)?),
        dependency: texts(alloc, row.dependency)?,
        message_type,
        enum_type: enums(alloc, row.enums)?,
        service: List::new(alloc),
        extension: List::new(alloc),
        options: Some(options(alloc, row.options)?),
        source_code_info: None,
        public_dependency: List::new(alloc),
        weak_dependency: List::new(alloc),
        syntax: syntax(alloc, row.syntax)?,
        unknown: Recs::new(alloc),
    })
}

fn file(alloc: Global, row: &FileRow) -> Result<FileDescriptorProto, NoMemory>
    ensures { IfOk result (λ file. file ≡ row_file row.now) }
{
    let mut messages = List::new(alloc);
    add_messages(alloc, row.messages, &mut messages)?;
    file_with(alloc, row, messages)
}

/// The messages of `descriptor.proto`, which stand in several tables.
fn descriptor_messages(alloc: Global) -> Result<List<DescriptorProto>, NoMemory>
    ensures { IfOk result (λ messages. messages ≡ map top_record descriptor_file.messages) }
{
    let mut messages = List::new(alloc);
    add_messages(alloc, descriptor_files_rows(), &mut messages)?;
    add_messages(alloc, descriptor_members_rows(), &mut messages)?;
    add_messages(alloc, descriptor_file_options_rows(), &mut messages)?;
    add_messages(alloc, descriptor_field_options_rows(), &mut messages)?;
    add_messages(alloc, descriptor_features_rows(), &mut messages)?;
    Ok(messages)
}

fn descriptor(alloc: Global) -> Result<FileDescriptorProto, NoMemory>
    ensures { IfOk result (λ file. file ≡ file_record descriptor_file) }
{
    let messages = descriptor_messages(alloc)?;
    file_with(alloc, descriptor_row(), messages)
}

/// How many built-in files there are.
#[tactic(auto, unfolding(crate::specs::Files::wkt_rows, crate::specs::Files::wkt_files))]
pub fn file_count() -> usize
    ensures { result ≡ length wkt_files }
{
    12
}

/// The built-in file of this index; each stands behind those that it imports. The only error is want of memory.
#[tactic(auto, unfolding(crate::specs::Files::wkt_rows, crate::specs::Files::wkt_files))]
pub fn wkt_file_at(alloc: Global, index: usize) -> Result<FileDescriptorProto, NoMemory>
    requires { index < length wkt_files }
    ensures { IfOk result (λ file. slice_get wkt_files index ≡ Some file) }
{
    match index {
        0 => file(alloc, any_row()),
        1 => file(alloc, source_context_row()),
        2 => file(alloc, type_row()),
        3 => file(alloc, api_row()),
        4 => descriptor(alloc),
        5 => file(alloc, duration_row()),
        6 => file(alloc, empty_row()),
        7 => file(alloc, field_mask_row()),
        8 => file(alloc, struct_row()),
        9 => file(alloc, timestamp_row()),
        10 => file(alloc, wrappers_row()),
        _ => file(alloc, plugin_row()),
    }
}

/// The name of the file of this index.
#[tactic(auto, unfolding(crate::specs::Files::wkt_rows, crate::specs::Files::wkt_files))]
fn name_at(index: usize) -> &'static str
    requires { index < length wkt_files }
    ensures { IfSome (slice_get wkt_files index) (λ (file : FileRecord). file.name ≡ Some result.now) }
{
    match index {
        0 => "google/protobuf/any.proto",
        1 => "google/protobuf/source_context.proto",
        2 => "google/protobuf/type.proto",
        3 => "google/protobuf/api.proto",
        4 => "google/protobuf/descriptor.proto",
        5 => "google/protobuf/duration.proto",
        6 => "google/protobuf/empty.proto",
        7 => "google/protobuf/field_mask.proto",
        8 => "google/protobuf/struct.proto",
        9 => "google/protobuf/timestamp.proto",
        10 => "google/protobuf/wrappers.proto",
        _ => "google/protobuf/compiler/plugin.proto",
    }
}

/// The built-in file of exactly this name, as `google/protobuf/any.proto`, and None where there is none. The only
/// error is want of memory.
pub fn wkt_file(alloc: Global, name: &str) -> Result<Option<FileDescriptorProto>, NoMemory>
    ensures { IfOk result (λ found. found ≡ wkt_file_named name.now) }
{
    for index in 0..file_count() {
        if name_at(index) == name {
            return Ok(Some(wkt_file_at(alloc, index)?));
        }
    }
    Ok(None)
}
