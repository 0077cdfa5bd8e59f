//! The agent: its groups of objects, its answers to datagrams, and the samples of its alarms, with their notifications.
#![tactic(auto)]

mod agent;
mod answer;
mod firing;
mod groups;
mod laws;
mod notification;
mod sampling;
mod told;
mod trap;

pub use agent::Agent;
pub use answer::{Answer, Reason};
pub use laws::{
    advance_is_orderly, every_advance, every_reply, frame_is_orderly, one_advance, one_reply,
    reply_is_orderly,
};
pub use rm_group::MOST_FRAMES;
pub use rm_reply::MOST_REPLY;
