// The rows of the built-in files, each tied to the file's definition.
ghost use Rattle.std.specs.Prelude.{◌≡◌, map};
ghost use Rattle.pbx_wkt_files.specs.Records.{file_record, top_record};
ghost use Rattle.pbx_wkt_files.specs.Files.{any_file, source_context_file, type_file, api_file, descriptor_file, duration_file};
ghost use Rattle.pbx_wkt_files.specs.Files.{empty_file, field_mask_file, struct_file, timestamp_file, wrappers_file, plugin_file};
ghost use Rattle.pbx_wkt_files.specs.Files.{descriptor_files, descriptor_members, descriptor_file_options, descriptor_field_options, descriptor_features};
ghost use Rattle.pbx_wkt_files.specs.Rows.{row_top, row_file, row_file_with};

use crate::row::{FileRow, TopRow};
use crate::table::{
    DESCRIPTOR_FEATURES, DESCRIPTOR_FIELD_OPTIONS, DESCRIPTOR_FILE_OPTIONS, DESCRIPTOR_FILES,
    DESCRIPTOR_MEMBERS, FILE_ANY, FILE_API, FILE_DESCRIPTOR, FILE_DURATION, FILE_EMPTY,
    FILE_FIELD_MASK, FILE_PLUGIN, FILE_SOURCE_CONTEXT, FILE_STRUCT, FILE_TIMESTAMP, FILE_TYPE,
    FILE_WRAPPERS,
};

#[tactic(auto, unfolding(pbx_link_record::specs::Linked::camel_from))]
pub(crate) fn any_row() -> &'static FileRow
    ensures { row_file result.now ≡ file_record any_file }
{
    &FILE_ANY
}

#[tactic(auto, unfolding(pbx_link_record::specs::Linked::camel_from))]
pub(crate) fn source_context_row() -> &'static FileRow
    ensures { row_file result.now ≡ file_record source_context_file }
{
    &FILE_SOURCE_CONTEXT
}

#[tactic(auto, unfolding(pbx_link_record::specs::Linked::camel_from))]
pub(crate) fn type_row() -> &'static FileRow
    ensures { row_file result.now ≡ file_record type_file }
{
    &FILE_TYPE
}

#[tactic(auto, unfolding(pbx_link_record::specs::Linked::camel_from))]
pub(crate) fn api_row() -> &'static FileRow
    ensures { row_file result.now ≡ file_record api_file }
{
    &FILE_API
}

#[tactic(auto, unfolding(pbx_link_record::specs::Linked::camel_from))]
pub(crate) fn duration_row() -> &'static FileRow
    ensures { row_file result.now ≡ file_record duration_file }
{
    &FILE_DURATION
}

#[tactic(auto, unfolding(pbx_link_record::specs::Linked::camel_from))]
pub(crate) fn empty_row() -> &'static FileRow
    ensures { row_file result.now ≡ file_record empty_file }
{
    &FILE_EMPTY
}

#[tactic(auto, unfolding(pbx_link_record::specs::Linked::camel_from))]
pub(crate) fn field_mask_row() -> &'static FileRow
    ensures { row_file result.now ≡ file_record field_mask_file }
{
    &FILE_FIELD_MASK
}

#[tactic(auto, unfolding(pbx_link_record::specs::Linked::camel_from))]
pub(crate) fn struct_row() -> &'static FileRow
    ensures { row_file result.now ≡ file_record struct_file }
{
    &FILE_STRUCT
}

#[tactic(auto, unfolding(pbx_link_record::specs::Linked::camel_from))]
pub(crate) fn timestamp_row() -> &'static FileRow
    ensures { row_file result.now ≡ file_record timestamp_file }
{
    &FILE_TIMESTAMP
}

#[tactic(auto, unfolding(pbx_link_record::specs::Linked::camel_from))]
pub(crate) fn wrappers_row() -> &'static FileRow
    ensures { row_file result.now ≡ file_record wrappers_file }
{
    &FILE_WRAPPERS
}

#[tactic(auto, unfolding(pbx_link_record::specs::Linked::camel_from))]
pub(crate) fn plugin_row() -> &'static FileRow
    ensures { row_file result.now ≡ file_record plugin_file }
{
    &FILE_PLUGIN
}

/// `descriptor.proto` without its messages.
pub(crate) fn descriptor_row() -> &'static FileRow
    ensures { row_file_with result.now (map top_record descriptor_file.messages) ≡ file_record descriptor_file }
{
    &FILE_DESCRIPTOR
}

#[tactic(auto, unfolding(pbx_link_record::specs::Linked::camel_from, crate::specs::Files::descriptor_files))]
pub(crate) fn descriptor_files_rows() -> &'static [TopRow]
    ensures { map row_top result.now ≡ map top_record descriptor_files }
{
    &DESCRIPTOR_FILES
}

#[tactic(auto, unfolding(pbx_link_record::specs::Linked::camel_from, crate::specs::Files::descriptor_members))]
pub(crate) fn descriptor_members_rows() -> &'static [TopRow]
    ensures { map row_top result.now ≡ map top_record descriptor_members }
{
    &DESCRIPTOR_MEMBERS
}

#[tactic(auto, unfolding(pbx_link_record::specs::Linked::camel_from, crate::specs::Files::descriptor_file_options))]
pub(crate) fn descriptor_file_options_rows() -> &'static [TopRow]
    ensures { map row_top result.now ≡ map top_record descriptor_file_options }
{
    &DESCRIPTOR_FILE_OPTIONS
}

#[tactic(auto, unfolding(pbx_link_record::specs::Linked::camel_from, crate::specs::Files::descriptor_field_options))]
pub(crate) fn descriptor_field_options_rows() -> &'static [TopRow]
    ensures { map row_top result.now ≡ map top_record descriptor_field_options }
{
    &DESCRIPTOR_FIELD_OPTIONS
}

#[tactic(auto, unfolding(pbx_link_record::specs::Linked::camel_from, crate::specs::Files::descriptor_features))]
pub(crate) fn descriptor_features_rows() -> &'static [TopRow]
    ensures { map row_top result.now ≡ map top_record descriptor_features }
{
    &DESCRIPTOR_FEATURES
}
