//! Request files, read line by line through a window: each line is a moment and the octets of a datagram.
#![tactic(auto)]

mod fault;
mod laws;
mod lines;
mod requests;

pub use fault::RequestsFault;
pub use laws::{numbers_are_decimal, numbers_are_written, numbers_read_back};
pub use requests::{Request, Requests};
