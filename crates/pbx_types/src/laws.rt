ghost use Rattle.pbx_desc.specs.Laws.{FixedByContent};
ghost use Rattle.pbx_types.specs.Content.{list_content, struct_content, value_content};
ghost use Rattle.pbx_types.specs.Exact.{is_exact_any, is_exact_duration, is_exact_empty, is_exact_list, is_exact_mask, is_exact_struct, is_exact_timestamp};
ghost use Rattle.pbx_types.specs.Exact.{is_exact_value};
ghost use Rattle.pbx_types.specs.PlainContent.{any_content, duration_content, empty_content, mask_content, timestamp_content};

/// No two exact records of these types hold the same content, so decoded bytes fix the record.
pub fn contents_fix_records()
    ensures any { FixedByContent any_content is_exact_any }
    ensures duration { FixedByContent duration_content is_exact_duration }
    ensures empty { FixedByContent empty_content is_exact_empty }
    ensures list_value { FixedByContent list_content is_exact_list }
    ensures mask { FixedByContent mask_content is_exact_mask }
    ensures struct_value { FixedByContent struct_content is_exact_struct }
    ensures timestamp { FixedByContent timestamp_content is_exact_timestamp }
    ensures value { FixedByContent value_content is_exact_value }
{}
