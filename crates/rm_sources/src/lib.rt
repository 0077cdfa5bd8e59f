//! The groups whose variables alarms may sample, as one group of objects.
#![tactic(auto)]

mod group;
mod sources;

pub use sources::Sources;
