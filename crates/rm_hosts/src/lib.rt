//! The hosts that frames come from and go to: hostControlTable, hostTable and hostTimeTable (RFC 1757, section 5).
#![tactic(auto)]

mod by_address;
mod by_rank;
mod host_counts;
mod host_room;
mod host_rows;
mod hosts;
mod shown;

pub use host_counts::HostCounts;
pub use host_room::HostRoom;
pub use host_rows::HostRows;
pub use hosts::{HostTable, Hosts};
