//! The words of a command line, read as a command with its operands and options.
#![tactic(auto)]

mod captures;
mod command;
mod laws;
mod names;
mod options;
mod parts;
mod scan;
mod values;

pub use captures::Captures;
pub use command::{Command, read_command};
pub use laws::one_command;
pub use options::RunOptions;
