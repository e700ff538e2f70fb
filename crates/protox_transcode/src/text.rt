//! JSON texts.

ghost use Rattle.std.specs.Prelude.{◌≡◌, IfOk, option_map};
ghost use Rattle.serde_json.specs.View.{view};
ghost use Rattle.protox_transcode.specs.Json.{json_of};

use pbx_wire::NoMemory;
use serde_json::Value;
use std::alloc::Global;

/// The tree of a JSON text; None where the bytes are none. The only error is want of memory.
pub fn read_json_text(alloc: Global, text: &[u8]) -> Result<Option<Value>, NoMemory>
    ensures { IfOk result (λ tree. json_of text.now ≡ option_map view tree) }
{
    match Value::from_slice(alloc, text) {
        Ok(tree) => Ok(Some(tree)),
        Err(error) => {
            if error.is_memory() {
                Err(NoMemory)
            } else {
                Ok(None)
            }
        }
    }
}
