//! What a file sees of the files of a pool.
#![tactic(auto)]

mod imports;
mod own_names;
mod packages;
mod view;

pub use imports::visible_files;
pub use view::VisibleFiles;
