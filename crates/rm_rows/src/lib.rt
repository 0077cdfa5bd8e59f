//! The rows of a table of bounded size, of which the one that was referred to least recently gives way to a new one.
#![tactic(auto)]

mod first;
mod index;
mod ranks;
mod rows;
mod touch;
mod walk;

pub use first::Above;
pub use index::move_item;
pub use rows::Rows;
pub use touch::Touch;
