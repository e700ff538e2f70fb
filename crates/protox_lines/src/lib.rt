//! Lines of JSON converted to length-prefixed records and back, item by item, as messages of one type of a pool.
#![tactic(auto)]

mod converter;
mod fault;
mod lines;
mod records;
mod run;
mod told;

pub use converter::Converter;
pub use protox_lines_items::LineError;
pub use run::run_lines;
pub use told::error_line;
