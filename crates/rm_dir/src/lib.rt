//! The directory of protocols (RFC 2021, section 6): protocolDirTable, and when it last changed.
#![tactic(auto)]

mod active;
mod built_in;
mod cell;
mod directory;
mod first_rows;
mod group;
mod keys;
mod laws;
mod locals;
mod row;
mod settle;
mod slots;
mod support;

pub use cell::Others;
pub use directory::Directory;
pub use keys::DirectoryKeys;
pub use laws::{locals_are_apart, slots_are_active};
pub use locals::judge_locals;
pub use row::DirectoryRow;
pub use support::Support;
