//! The control tables whose valid rows collect what frames bring, as one group of objects: the history, the matrix, and the hosts with
//! their reports.
#![tactic(auto)]

mod collectors;
mod group;

pub use collectors::Collectors;
