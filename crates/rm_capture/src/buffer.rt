// The buffer of a row.
ghost use Rattle.std.specs.Prelude.{◌≡◌, ◌+◌, ◌/◌, ◌≤◌};
ghost use Rattle.rm_capture.specs.declared.buffer_row.TheConstants.{MOST_GRANTED, MOST_SLICE};

use crate::buffer_row::MOST_GRANTED;
use crate::captured::Captured;
use rm_pool::Part;
use rm_val::NoMemory;
use std::alloc::Global;

/// What a valid row of bufferControlTable keeps of the packets that its channel accepts, in storage of its own.
#[derive(Drop)]
pub struct Buffer {
    /// The channel whose packets it keeps.
    pub channel: u32,
    /// bufferControlMaxOctetsGranted
    pub granted: u32,
    /// The moment at which its row became valid, in milliseconds.
    pub started: u32,
    /// The packets.
    pub captured: Captured,
    ghost storage: { captured.ring.storage ≡ MOST_GRANTED + MOST_SLICE },
    ghost places: { captured.ring.places ≡ MOST_GRANTED / 32 },
    ghost most: { granted ≤ MOST_GRANTED },
}

impl Part for Buffer {
    fn spare(alloc: Global) -> Result<Buffer, NoMemory> {
        let captured = Captured::new(alloc).map_err(|_| NoMemory)?;
        Ok(Buffer {
            channel: 0,
            granted: MOST_GRANTED,
            started: 0,
            captured,
        })
    }
}
