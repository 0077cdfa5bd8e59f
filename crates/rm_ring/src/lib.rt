//! Packets that are kept in a ring of octets, each in one piece, up to what they may cost together.
#![tactic(auto)]

mod keeping;
mod packet;
mod place;
mod ring;
mod runs;

pub use packet::Packet;
pub use ring::{PLACE_COST, Ring};
