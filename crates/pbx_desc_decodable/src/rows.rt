// The rows of the table, each part tied to its types in the schema.
ghost use Rattle.std.specs.Prelude.{◌≡◌, map, take, drop};
ghost use Rattle.pbx_desc_decodable.specs.Schema.{options_schema};
ghost use Rattle.pbx_desc_decodable.specs.Rows.{row_type, row_enum};

use crate::table::{
    ENUMS, EnumRow, FEATURE_TYPES, FILE_OPTION_TYPES, FILE_TYPES, MEMBER_TYPES, OPTION_TYPES,
    TypeRow,
};

pub(crate) fn file_types() -> &'static [TypeRow]
    ensures { map row_type result.now ≡ take 7 options_schema.messages }
{
    &FILE_TYPES
}

pub(crate) fn member_types() -> &'static [TypeRow]
    ensures { map row_type result.now ≡ take 7 (drop 7 options_schema.messages) }
{
    &MEMBER_TYPES
}

pub(crate) fn file_option_types() -> &'static [TypeRow]
    ensures { map row_type result.now ≡ take 2 (drop 7 (drop 7 options_schema.messages)) }
{
    &FILE_OPTION_TYPES
}

pub(crate) fn option_types() -> &'static [TypeRow]
    ensures { map row_type result.now ≡ take 7 (drop 2 (drop 7 (drop 7 options_schema.messages))) }
{
    &OPTION_TYPES
}

pub(crate) fn feature_types() -> &'static [TypeRow]
    ensures { map row_type result.now ≡ drop 7 (drop 2 (drop 7 (drop 7 options_schema.messages))) }
{
    &FEATURE_TYPES
}

pub(crate) fn enum_rows() -> &'static [EnumRow]
    ensures { map row_enum result.now ≡ options_schema.enums }
{
    &ENUMS
}
