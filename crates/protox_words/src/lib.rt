//! The words of the program's command line.
//!
//! The words are `[-I PATH]* [-o PATH] [--include_imports] [--include_source_info] [--descriptor_set_in PATH] [--retries N]
//! [--type NAME [--wire PATH] [--json_int64_numbers] [--json_enum_numbers] [--json_proto_names] [--json_defaults]] FILE+`, or `--generate N`.
#![tactic(auto)]

mod args;
mod count;
mod fault;
mod json;
mod options;
mod scan;
mod words;

pub use args::Args;
pub use fault::{WordFault, WordsError};
pub use json::JsonFlags;
pub use words::read_words;
