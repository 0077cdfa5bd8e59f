//! The facts of an Ethernet frame: how long it was on the wire, whether it is good, and what its headers say of
//! addresses, type, protocol and ports.
#![tactic(auto)]

mod datagram;
mod ethernet;
mod field;
mod frame;
mod known;
mod ports;
mod wire;

pub use datagram::IpPair;
pub use ethernet::{Cast, Pair};
pub use frame::facts;
pub use known::Facts;
pub use ports::Ports;
