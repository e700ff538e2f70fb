//! What holds of paths that are opened in another order, and of a path that is opened again. Laws that no code calls: they are the contracts
//! of functions that do nothing.
#![tactic(auto)]

mod order_laws;
mod tries;

pub use order_laws::closes_in_each_order;
pub use tries::tries_are_one;
