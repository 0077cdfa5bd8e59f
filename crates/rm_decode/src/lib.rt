//! The text that shows a message of SNMPv2c (RFC 1901; RFC 1905, section 3): its header, and a line for each binding.
#![tactic(auto)]

mod line;
mod writing;

pub use writing::{Unwritten, decode};
