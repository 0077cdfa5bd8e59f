//! The path of a frame: the protocols that it has, layer by layer, as far as a directory has them.
#![tactic(auto)]

mod entry;
mod identifier;
mod path;
mod protocol;
mod protocols;

pub use identifier::ProtocolIdentifier;
pub use path::Path;
pub use protocol::Protocol;
pub use protocols::{Protocols, SLOTS};
