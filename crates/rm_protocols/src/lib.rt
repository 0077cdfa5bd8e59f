//! The directory of the protocols that the probe knows, and the tables that count by them, as one group of objects (RFC 2021, section 6).
#![tactic(auto)]

mod group;
mod protocol_tables;

pub use protocol_tables::ProtocolTables;
