//! Which protocols above ip the tables of hosts, or of pairs of hosts, count (RFC 2021, protocolDirHostConfig and
//! protocolDirMatrixConfig), by the directory of protocols, and their slots.
#![tactic(auto)]

mod settling;
mod slots;

pub use settling::settle;
pub use slots::{TableKind, slots_on};
