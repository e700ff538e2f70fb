//! What the programs over a descriptor set share: reading the set from a disk, and saying why a program is stopped.
#![tactic(auto)]

mod pool;
mod stop;

pub use pool::read_pool;
pub use stop::{Stop, report};
