//! A pool of linked files, with look-ups by names.
#![tactic(auto)]

mod index;
mod items;
mod linking;
mod packages;
mod places;
mod pool;
mod refusal;
mod tables;

pub use pool::Pool;
pub use refusal::Refusal;
