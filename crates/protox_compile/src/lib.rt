//! Compiling: files and all that they import, in order.
#![tactic(auto)]

mod compiler;
mod compiling;
mod laws;
mod retry;
mod sets;

pub use compiler::{Compiler, Files};
pub use compiling::{Compiled, OpenedAll, compile, open_all};
pub use laws::{names_repeat_as_paths, repeats_are_again, set_opens_again};
pub use protox_compile_walk::{
    Opened, closed_are_ordered, closes_again, closure_is_post_order, opening_again_marks,
    opens_by_all, opens_once, roots_name_themselves,
};
