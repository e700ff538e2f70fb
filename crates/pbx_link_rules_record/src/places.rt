// Places of fields of items.
ghost use Rattle.std.specs.Prelude.{◌≡◌, ◌++◌, ◌∷◌, [], pos, IfOk};

use pbx_link_definitions::{place_at, place_in};
use pbx_wire::{List, NoMemory};
use std::alloc::Global;

/// The place of a field of an item: of the item at the index in the list of this number. The only error is want of memory; an index
/// above those of 31 bits is refused likewise.
pub(crate) fn place_of_field(
    alloc: Global,
    place: &[i32],
    list: u8,
    index: usize,
    field: u8,
) -> Result<List<i32>, NoMemory>
    ensures { IfOk result (λ there. there ≡ (place.now ++ pos list ∷ pos index ∷ []) ++ pos field ∷ []) }
{
    let item = place_in(alloc, place, list, index)?;
    place_at(alloc, item.as_slice(), field)
}
