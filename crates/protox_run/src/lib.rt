//! The program: what words ask for is read, made, written and printed.
#![tactic(auto)]

mod carry;
mod files;
mod laws;
mod plan;
mod report;
mod stop;
mod top;

pub use laws::{done_is_determined, stopped_run_leaves};
pub use report::say;
pub use stop::Refusal;
pub use top::{Ran, run};
