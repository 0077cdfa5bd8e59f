//! What a frame does to the hosts that a control row holds in the network and application layer (RFC 2021, section 6).
#![tactic(auto)]

mod counts;
mod frames;
mod gains;
mod host_row;

pub use counts::{NetworkCounts, Traffic};
pub use frames::{Named, pass};
pub use gains::{received, sent};
