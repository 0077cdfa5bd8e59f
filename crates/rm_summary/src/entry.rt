// The one public call.
ghost use Rattle.std.specs.Prelude.{◌≡◌, ◌≤◌, Err};
ghost use Rattle.rm_edge.specs.Shelves.{KeepsShelf};
ghost use Rattle.rm_edge.specs.Uses.{file_use, sink_use};
ghost use Rattle.rm_pcap.specs.declared.fault.PcapFault.TheVariants.{Read};
ghost use Rattle.rm_summary.specs.Ends.{Ends, IsExact};

use crate::reading::read;
use crate::writing::write;
use rm_edge::{Shelf, Sink};
use rm_pcap::{PcapFault, every_reading, one_reading};
use std::alloc::Global;

/// Why a summary wasn't written whole.
#[derive(Clone, Copy, Debug, PartialEq, Eq)]
pub enum SummaryFault {
    /// The capture can't be read to its end. Nothing was put.
    Capture(PcapFault),
    /// A put failed. A front of the text may have been put.
    Put,
}

/// Writes the summary of a capture, whose first frame stands at the moment `lead` in milliseconds. A frame of fewer than 60 octets
/// counts as padded to 60, unless `keep_short` is set.
///
/// It has ten lines of a word, a blank and a number: `frames`, `octets` (on the wire, the check sequence included), `good` (64 to 1518
/// octets, or to 1522 with a tag), `undersize` and `oversize` (fewer and more), `broadcast` and `multicast` (good frames only), `ip` (with a
/// whole header of IPv4), and `first` and `last`, the moments of the first and the last frame in milliseconds, 0 where there is none. The
/// eleventh is `end` or, where the file cuts a record short, `cut`, with the number of frames.
///
/// The capture is read to its end before the first line is put, and each line is put by itself. The faults of the capture are those of
/// `Capture`; `Read` comes only where the shelf's count of that name has risen, and `Put` only where the sink's count has.
pub fn summary<F: Shelf, K: Sink>(
    alloc: Global,
    lead: u32,
    keep_short: bool,
    capture: &str,
    shelf: &mut F,
    out: &mut K,
) -> Result<(), SummaryFault>
    ensures ends { Ends lead keep_short (file_use F.held F.faults shelf.old shelf.new capture.now) (sink_use K.content K.faults out.old out.new) result }
    ensures exact { IsExact lead keep_short (file_use F.held F.faults shelf.old shelf.new capture.now) (sink_use K.content K.faults out.old out.new) result }
    ensures shelf { KeepsShelf F.held F.faults shelf.old shelf.new (λ each. each ≡ capture.now) (result ≡ Err (SummaryFault.Capture Read)) }
    ensures puts_later { K.faults out.old ≤ K.faults out.new }
{
    one_reading();
    let summary = match read(alloc, lead, keep_short, capture, shelf) {
        Ok(summary) => summary,
        Err(fault) => return Err(SummaryFault::Capture(fault)),
    };
    match write(&summary, out) {
        Ok(()) => Ok(()),
        Err(_) => Err(SummaryFault::Put),
    }
}
