//! Messages of SNMPv2c (RFC 1901; RFC 1905, section 3): a reader that answers the message or the first fault with its
//! place, and a writer of canonical messages.
#![tactic(auto)]

mod draft;
mod kind;
mod laws;
mod layout;
mod message;
mod places;

pub use draft::{Draft, reads_back};
pub use kind::Kind;
pub use laws::{
    bindings_add_up, bindings_are_bounded, bindings_lengthen, canonical_messages_are_shortest,
    empty_messages_are_short, every_parse, index_128_is_longest, no_message_in_front, one_message,
    one_parse,
};
pub use message::{Fault, Message, read_any, read_message};
pub use places::{Offsets, Places};
