//! What the acts of a journal bring about: what alarms sample, when, and what their samples cross; which events fire; how
//! channels judge frames, fire and are switched; which packets buffers keep; and what alarms read. No code keeps a journal.
#![tactic(auto)]

mod firing;
mod sampled;

pub use firing::Firing;
pub use sampled::Sampled;
