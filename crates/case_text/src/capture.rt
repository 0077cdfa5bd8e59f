// Captures of frames.
use crate::frame::Frame;
use crate::trouble::Trouble;
use std::alloc::Global;

/// The header of a capture of Ethernet frames with times in microseconds, the lowest octet of a number first.
const HEADER: [u8; 24] = [
    0xd4, 0xc3, 0xb2, 0xa1, 2, 0, 4, 0, 0, 0, 0, 0, 0, 0, 0, 0, 0, 0, 4, 0, 1, 0, 0, 0,
];

/// The octets of a capture.
#[derive(Drop)]
pub struct Capture {
    pub octets: Vec<u8>,
    /// The moment of its first frame, where it has one.
    pub first: Option<u32>,
    is_raw: bool,
}

impl Capture {
    /// A capture without a frame.
    pub fn new(alloc: Global) -> Result<Capture, Trouble> {
        Ok(Capture {
            octets: Vec::from_slice(alloc, &HEADER)?,
            first: None,
            is_raw: false,
        })
    }

    /// Takes octets as they are. The first ones stand in place of the header.
    pub fn push_octets(&mut self, octets: &[u8]) -> Result<(), Trouble> {
        if !self.is_raw {
            self.octets.clear();
            self.is_raw = true;
        }
        Ok(self.octets.extend_from_slice(octets)?)
    }

    /// Adds a record with these seconds and microseconds.
    pub fn push_record(
        &mut self,
        seconds: u32,
        fraction: u32,
        frame: &Frame,
    ) -> Result<(), Trouble> {
        for number in [seconds, fraction, frame.captured, frame.length] {
            self.octets.extend_from_slice(&number.to_le_bytes())?;
        }
        let captured = frame.captured as usize;
        let given = frame.octets.get(..captured).unwrap_or(&frame.octets);
        self.octets.extend_from_slice(given)?;
        for _ in given.len()..captured {
            self.octets.push(0)?;
        }
        Ok(())
    }

    /// Adds frames from a moment on, so many milliseconds apart. The first frame of all captures comes at the moment `lead`.
    pub fn push_frames(
        &mut self,
        lead: u32,
        moment: u32,
        count: u32,
        every: u32,
        frame: &Frame,
    ) -> Result<(), Trouble> {
        if self.first.is_none() {
            self.first = Some(moment);
        }
        let mut since = moment
            .checked_sub(lead)
            .ok_or(Trouble::Form("a frame before the first one's moment"))?;
        for _ in 0..count {
            let microseconds = (since % 1000).wrapping_mul(1000);
            self.push_record(since / 1000, microseconds, frame)?;
            since = since.wrapping_add(every);
        }
        Ok(())
    }
}
