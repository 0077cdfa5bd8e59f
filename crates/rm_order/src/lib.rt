//! Keys in their order, in memory that is reserved, and how they follow the keys of a table that they stand for, each told the other way round.
#![tactic(auto)]

mod edits;
mod ordered;
mod reversible;
mod search;

pub use ordered::OrderedKeys;
pub use reversible::Reversible;
