//! Converting one item.

ghost use Rattle.std.specs.Prelude.{◌≡◌, ◌≤◌, ℕ, List as ListOf, Some, IfOk, IfErr, length};
ghost use Rattle.protox_lines_items.specs.Items.{longest};
ghost use Rattle.protox_lines_items.specs.Told.{Convert, Faulty, IsNotConverted};
ghost use Rattle.protox_lines_items.specs.declared.error.ItemFault.{ItemFault as FaultOf};

use crate::error::ItemFault;
use pbx_wire::Blob;
use std::alloc::Global;

/// What converts one item after another: a line to a record, or a record to a line. It may keep what it looked up for one item for those
/// behind it.
pub trait ConvertItem {
    /// What an item is converted to, and none where it is faulty.
    ghost converted: { Self → Convert };

    /// What is wrong with an item that is not converted.
    ghost faulty: { Self → Faulty };

    /// The bytes of an item that is not too long, converted. `TooLong` does not come.
    fn convert(&mut self, alloc: Global, item: &[u8]) -> Result<Blob, ItemFault>
        ensures ok { IfOk result (λ bytes. converted self.old item.now ≡ Some bytes) }
        ensures err { IfErr result (IsNotConverted (converted self.old) (faulty self.old) item.now) }
        ensures same { converted self.new ≡ converted self.old }
        ensures same_faults { (x : ListOf ℕ) (e : FaultOf) → faulty self.new x e → faulty self.old x e };
}
