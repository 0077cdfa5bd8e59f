//! The replies to requests over any group of objects (RFC 1905, section 4.2): the answers to names, and the judgement of a
//! whole SetRequest. No group is named here.
#![tactic(auto)]

mod asked;
mod found;
mod laws;
mod names;
mod repetition;
mod reply;
mod request;
mod responses;
mod set;
mod unread;

pub use laws::{every_reply, granted_or_denied, one_reply};
pub use request::{MOST_REPLY, Request};
pub use responses::respond;
