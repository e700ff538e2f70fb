//! Faults of items.

ghost use Rattle.std.specs.Prelude.{◌≡◌};
ghost use Rattle.protox_lines.specs.Parts.{of_kind};

use pbx_json_meaning::{JsonError, JsonKind};
use protox_lines_items::ItemFault;

/// The fault of reading or writing an item's tree.
pub(crate) fn json_fault(error: JsonError) -> ItemFault
    ensures { result ≡ of_kind error.kind error }
{
    if matches!(error.kind, JsonKind::NoMemory) {
        ItemFault::NoMemory
    } else {
        ItemFault::Json(error)
    }
}
