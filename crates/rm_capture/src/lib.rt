//! Capture buffers: the columns of bufferControlTable, and the packets that a buffer keeps (RFC 1757, section 5).
#![tactic(auto)]

mod buffer;
mod buffer_row;
mod buffers;
mod captured;
mod full_action;
mod packets;
mod taking;

pub use buffer::Buffer;
pub use buffer_row::{BufferRow, MOST_GRANTED, MOST_SLICE};
pub use buffers::Buffers;
pub use captured::{Captured, PacketInfo};
pub use full_action::FullAction;
