ghost use Rattle.std.specs.Prelude.{◌≡◌, IfOk};

use pbx_wire::{NoMemory, Text};
use std::alloc::Global;

/// A key of a map. In order false stands before true, numbers ascend whatever their variants, and texts go by their
/// bytes; truth values stand before numbers, and numbers before texts.
#[derive(Drop)]
pub enum MapKey {
    /// A key of kind `bool`.
    Bool(bool),
    /// A key of kind `int32`, `sint32` or `sfixed32`.
    I32(i32),
    /// A key of kind `int64`, `sint64` or `sfixed64`.
    I64(i64),
    /// A key of kind `uint32` or `fixed32`.
    U32(u32),
    /// A key of kind `uint64` or `fixed64`.
    U64(u64),
    /// A key of kind `string`.
    String(Text),
}

impl MapKey {
    /// An equal key. The only error is want of memory.
    pub fn copy(&self, alloc: Global) -> Result<MapKey, NoMemory>
        ensures { IfOk result (λ copy. copy ≡ self.now) }
    {
        match self {
            MapKey::Bool(value) => Ok(MapKey::Bool(*value)),
            MapKey::I32(value) => Ok(MapKey::I32(*value)),
            MapKey::I64(value) => Ok(MapKey::I64(*value)),
            MapKey::U32(value) => Ok(MapKey::U32(*value)),
            MapKey::U64(value) => Ok(MapKey::U64(*value)),
            MapKey::String(text) => Ok(MapKey::String(text.copy(alloc)?)),
        }
    }
}
