//! Values under numbers, by ascending number: a number is found by log n comparisons.
#![tactic(auto)]

mod map;

pub use map::NumberMap;
