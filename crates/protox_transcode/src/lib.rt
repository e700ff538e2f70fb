//! From files, a type's name and a JSON tree to the set of the files, the wire bytes and the tree under options.
#![tactic(auto)]

mod error;
mod input_tree;
mod json_fault;
mod laws;
mod set;
mod text;
mod transcode;

pub use error::{TopError, file_error};
pub use input_tree::InputTree;
pub use json_fault::json_line;
pub use laws::{refused_is_determined, transcoded_is_determined, transcodes_again};
pub use text::read_json_text;
pub use transcode::{
    Attempt, Transcoded, check_clear, compile_and_transcode, compile_and_transcode_retry,
    transcode_files,
};
