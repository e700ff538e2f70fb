//! The walk over imports: opening a path finishes its file behind all that it imports.
#![tactic(auto)]

mod finished;
mod frame;
mod indexes;
mod known;
mod laws;
mod opening;
mod place;
mod refusal;
mod root;
mod stack;
mod step;
mod walk;

pub use finished::FinishedFiles;
pub use laws::{
    closed_are_ordered, closes_again, closure_is_post_order, opening_again_marks, opens_by_all,
    opens_once, roots_name_themselves,
};
pub use root::{Opened, open_path};
