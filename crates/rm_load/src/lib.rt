//! A large valid input that is made from a number: frames between 64 hosts, which a probe counts, and what its tables show then.
#![tactic(auto)]

mod draws;
mod entry;
mod figure;
mod frames;
mod laws;
mod loading;
mod made;
mod requests;
mod table;
mod unheard;
mod writing;

pub use entry::{LoadFault, load};
pub use laws::figures_are_numbers;
