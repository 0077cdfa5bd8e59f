//! Four groups of objects as one: what a type makes of them that has each of them by its name.
#![tactic(auto)]

mod least;
mod lowest;

pub use least::least_of;
pub use lowest::lowest_verdict;
