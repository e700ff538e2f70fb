//! protox: compiles Protocol Buffers source files with all that they import into descriptor sets, and carries messages
//! from JSON to the wire format and to JSON under options, by default the canonical one.
//!
//! The public items of the other crates stand in modules of the crates' names, since two crates have a `Value`; `file` has
//! those of files, resolvers and errors together.
#![tactic(auto)]

pub use pbx_desc;
pub use pbx_json;
pub use pbx_link;
pub use pbx_message;
pub use pbx_parse;
pub use pbx_text;
pub use pbx_types;
pub use pbx_wire;
pub use pbx_wkt;
pub use protox_compile;
pub use protox_compile::{Compiled, Compiler, Opened, compile};
pub use protox_file;
pub use protox_file as file;
pub use protox_file::Error;
pub use protox_io;
pub use protox_run::{Ran, Refusal, done_is_determined, run, stopped_run_leaves};
pub use protox_transcode::{
    Attempt, TopError, Transcoded, compile_and_transcode, compile_and_transcode_retry,
    refused_is_determined, transcoded_is_determined, transcodes_again,
};
