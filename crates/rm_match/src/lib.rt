//! The bit tests by which a filter judges a packet: its octets, and its status (RFC 1757, section 5).
#![tactic(auto)]

mod octet_test;
mod packet_test;
mod status_test;

pub use packet_test::PacketTest;
pub use status_test::StatusTest;
