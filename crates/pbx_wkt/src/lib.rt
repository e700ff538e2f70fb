//! The built-in files as a pool and one by one, the names of the well-known types, and whether a message of a pool has the fields of
//! its well-known name.
#![tactic(auto)]

mod kind;
mod oneof;
mod pool;
mod row;
mod shape;
mod shape_test;

pub use pbx_wkt_files::wkt_file;
pub use pbx_wkt_types::is_well_known_type;
pub use pool::make_wkt_descriptor_pool;
pub use shape_test::has_shape;
