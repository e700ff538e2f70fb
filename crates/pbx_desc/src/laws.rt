ghost use Rattle.pbx_desc_encoding.specs.Content.{enum_content, enum_reserved_range_content, enum_value_content, extension_range_content, field_content};
ghost use Rattle.pbx_desc_encoding.specs.Content.{file_content, file_set_content, location_content, message_content, method_content, oneof_content};
ghost use Rattle.pbx_desc_encoding.specs.Content.{options_content, reserved_range_content, service_content, source_code_info_content};
ghost use Rattle.pbx_desc.specs.Exact.{is_exact_enum, is_exact_enum_reserved_range, is_exact_enum_value, is_exact_extension_range, is_exact_field};
ghost use Rattle.pbx_desc.specs.Exact.{is_exact_file, is_exact_file_set, is_exact_location, is_exact_message, is_exact_method, is_exact_oneof};
ghost use Rattle.pbx_desc.specs.Exact.{is_exact_options, is_exact_reserved_range, is_exact_service, is_exact_source_code_info};
ghost use Rattle.pbx_desc.specs.Laws.{FixedByContent, FileFixedByBytes, FileSetFixedByBytes};

/// No two exact records of a file, its services and its source info hold the same content, so decoded bytes fix the record.
pub fn contents_fix_files()
    ensures set { FixedByContent file_set_content is_exact_file_set }
    ensures set_bytes { FileSetFixedByBytes }
    ensures file { FixedByContent file_content is_exact_file }
    ensures file_bytes { FileFixedByBytes }
    ensures service { FixedByContent service_content is_exact_service }
    ensures method { FixedByContent method_content is_exact_method }
    ensures source_code_info { FixedByContent source_code_info_content is_exact_source_code_info }
    ensures location { FixedByContent location_content is_exact_location }
    ensures options { FixedByContent options_content is_exact_options }
{}

/// The same of messages, enums and their parts.
pub fn contents_fix_types()
    ensures message { FixedByContent message_content is_exact_message }
    ensures field { FixedByContent field_content is_exact_field }
    ensures oneof { FixedByContent oneof_content is_exact_oneof }
    ensures extension_range { FixedByContent extension_range_content is_exact_extension_range }
    ensures reserved_range { FixedByContent reserved_range_content is_exact_reserved_range }
    ensures enumeration { FixedByContent enum_content is_exact_enum }
    ensures enum_value { FixedByContent enum_value_content is_exact_enum_value }
    ensures enum_reserved_range { FixedByContent enum_reserved_range_content is_exact_enum_reserved_range }
{}
