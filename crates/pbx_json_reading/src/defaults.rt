// Defaults, which are absent where a field has no presence.
ghost use Rattle.std.specs.Prelude.{◌≡◌, false, option_map};
ghost use Rattle.pbx_content.specs.Meaning.{shown as shown_of};
ghost use Rattle.pbx_content_codec.specs.View.{val_of};
ghost use Rattle.pbx_json_meaning.specs.Asked.{has_presence as has_presence_of};

use pbx_content::{FieldShape, Kind, Schema};
use pbx_content_codec::{Held, unless_default};
use pbx_json_schema::has_presence;

/// The value, unless it is a default of a field without presence.
pub(crate) fn unless_field_default(
    schema: &Schema,
    field: &FieldShape,
    held: Option<Held>,
) -> Option<Held>
    ensures { option_map val_of result ≡ shown_of schema.now (has_presence_of field.now) field.now.kind (option_map val_of held) }
{
    match held {
        Some(held) => unless_default(schema, has_presence(field), field.kind, held),
        None => None,
    }
}

/// The value, unless it is the default of its kind, where nothing has presence.
pub(crate) fn unless_kind_default(schema: &Schema, kind: Kind, held: Option<Held>) -> Option<Held>
    ensures { option_map val_of result ≡ shown_of schema.now false kind (option_map val_of held) }
{
    match held {
        Some(held) => unless_default(schema, false, kind, held),
        None => None,
    }
}
