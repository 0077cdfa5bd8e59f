// The frames of a capture, which are counted before anything is written.
ghost use Rattle.std.specs.Prelude.{◌≡◌, Err, IfOk, IfErr};
ghost use Rattle.rm_edge.specs.Outside.{OfFile};
ghost use Rattle.rm_edge.specs.Shelves.{KeepsShelf};
ghost use Rattle.rm_edge.specs.Uses.{file_use};
ghost use Rattle.rm_pcap.specs.declared.fault.PcapFault.TheVariants.{Read};
ghost use Rattle.rm_summary.specs.Counted.{IsOf, ending_word};
ghost use Rattle.rm_summary.specs.Ends.{IsFault};

use crate::counts::Counts;
use rm_edge::Shelf;
use rm_pcap::{Capture, PcapFault, Step};
use std::alloc::Global;

/// The interface of a capture that is read by itself.
const INTERFACE: u32 = 1;

/// How a capture ends.
#[derive(Clone, Copy)]
pub enum Ending {
    /// With a whole record, or before the first.
    End,
    /// Within a record.
    Cut,
}

impl Ending {
    /// The word of the last line.
    pub fn word(self) -> [u8; 3]
        ensures { result ≡ ending_word self }
    {
        match self {
            Ending::End => *b"end",
            Ending::Cut => *b"cut",
        }
    }
}

/// What is counted of a capture, and how it ends.
#[derive(Clone, Copy)]
pub struct Summary {
    pub counts: Counts,
    pub ending: Ending,
}

/// Reads a capture, whose first frame stands at the moment `lead`, to its end, and counts its frames. The fault is its first.
pub fn read<F: Shelf>(
    alloc: Global,
    lead: u32,
    keep_short: bool,
    name: &str,
    shelf: &mut F,
) -> Result<Summary, PcapFault>
    ensures shelf { KeepsShelf F.held F.faults shelf.old shelf.new (λ each. each ≡ name.now) (result ≡ Err Read) }
    ensures counted { IfOk result (λ summary. OfFile (F.held shelf.old name.now) (λ bytes. IsOf lead keep_short bytes summary)) }
    ensures fault { IfErr result (IsFault lead (file_use F.held F.faults shelf.old shelf.new name.now)) }
{
    let mut capture = Capture::begin(alloc, shelf, name, INTERFACE, lead)?;
    let mut counts = Counts::new();
    loop {
        match capture.next(shelf, name)? {
            Step::Next(frame) => counts.count(&frame, keep_short),
            Step::End => return Ok(Summary {
                counts,
                ending: Ending::End,
            }),
            Step::Cut(_) => return Ok(Summary {
                counts,
                ending: Ending::Cut,
            }),
        }
    }
}
