//! The top call: runs the words of a command line.
#![tactic(auto)]

mod entry;

pub use entry::run;
pub use rm_probe::Status;
