//! Streams of lines and of length-prefixed records: how their bytes are cut into items, and how the items are converted one by one.
#![tactic(auto)]

mod bytes;
mod convert;
mod cutter;
mod driver;
mod error;
mod laws;
mod lines;
mod records;
mod writer;

pub use convert::ConvertItem;
pub use cutter::{CutFault, Cutter, Last, Taken};
pub use driver::convert_items;
pub use error::{ItemFault, LineError};
pub use laws::streams_are_one;
pub use lines::LineCutter;
pub use records::RecordCutter;
