//! The hosts of the network and application layer (RFC 2021, section 6): hlHostControlTable, nlHostTable and alHostTable.
#![tactic(auto)]

mod control;
mod counted_frame;
mod hosts;
mod part;
mod view;

pub use control::{HostColumns, HostControl};
pub use part::HostPart;
