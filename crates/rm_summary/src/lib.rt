//! The summary of a capture: how many frames it has of each kind, and when the first and the last came.
#![tactic(auto)]

mod counts;
mod entry;
mod figure;
mod lines;
mod reading;
mod writing;

pub use entry::{SummaryFault, summary};
pub use lines::{Line, line};
