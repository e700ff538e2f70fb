//! The schema that a number generates, and its transcoding: a large valid input for measures.
#![tactic(auto)]

mod files;
mod sources;
mod summary;

pub use summary::transcode_generated;
