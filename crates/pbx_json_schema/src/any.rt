// What a message of `google.protobuf.Any` holds: the URL of its payload's type, and the payload's bytes (google/protobuf/any.proto).

ghost use Rattle.std.specs.Prelude.{◌≡◌, Some};
ghost use Rattle.pbx_content.specs.Content.{get, fields};
ghost use Rattle.pbx_content_codec.specs.View.{val_of, content_of};
ghost use Rattle.pbx_json_meaning.specs.Forms.{text_at, bytes_at};

use pbx_content_codec::{Contents, Held};

/// The text that is held; of a value that is none, the empty one.
fn text_held(held: &Held) -> &str
    ensures { result.now ≡ text_at (Some (val_of held.now)) }
{
    match held {
        Held::Text(text) => text.as_str(),
        _ => "",
    }
}

/// The bytes that are held; of a value that is none, no bytes.
fn bytes_held(held: &Held) -> &[u8]
    ensures { result.now ≡ bytes_at (Some (val_of held.now)) }
{
    match held {
        Held::Bytes(bytes) => bytes.as_slice(),
        _ => &[],
    }
}

/// The URL of the payload's type, empty where the field `type_url` is absent.
pub fn type_url(contents: &Contents) -> &str
    ensures { result.now ≡ text_at (get 1 (fields (content_of contents.now))) }
{
    match contents.get(1) {
        Some(held) => text_held(held),
        None => "",
    }
}

/// The payload's bytes, none where the field `value` is absent.
pub fn payload_bytes(contents: &Contents) -> &[u8]
    ensures { result.now ≡ bytes_at (get 2 (fields (content_of contents.now))) }
{
    match contents.get(2) {
        Some(held) => bytes_held(held),
        None => &[],
    }
}
