// Whether captures of which no frame is left are cut short.
ghost use Rattle.std.specs.Prelude.{◌≡◌, ◌<◌, ◌+◌, ◌^◌, [], ℕ, List, length, Err, IfErr};
ghost use Rattle.rm_edge.specs.Outside.{File, Rose};
ghost use Rattle.rm_edge.specs.Shelves.{KeepsShelf};
ghost use Rattle.rm_pcap.specs.Records.{Stop};
ghost use Rattle.rm_pcap.specs.View.{progress_of};
ghost use Rattle.rm_captures.specs.Left.{AreLeft, EndCut, EndsCut, IsOfRecords, Leaves};
ghost use Rattle.rm_captures.specs.Reading.{texts, AreHeld, IsOneOf, OneRose};

use crate::fault::CaptureFault;
use rm_edge::Shelf;
use rm_pcap::{Capture, PcapFault, Step};

/// Whether one of some captures is cut short, whose interfaces are those from a number on, where no frame is left.
///
/// The faults are those of the captures, in order of their interfaces. It takes no memory.
pub fn is_cut<F: Shelf>(
    captures: &mut [Capture],
    shelf: &mut F,
    names: &[&str],
    interface: u32,
) -> Result<bool, CaptureFault>
    requires low { interface + length names.now < 2 ^ 32 }
    ensures shelf { KeepsShelf F.held F.faults shelf.old shelf.new (IsOneOf (texts names.now)) ((at : ℕ) × (result ≡ Err (record { interface = at; fault = PcapFault.Read }))) }
    ensures cause { IfErr result (λ found. found.fault ≡ PcapFault.Read → OneRose (F.faults shelf.old) (F.faults shelf.new) (texts names.now)) }
    ensures kinds { IfErr result (λ found. IsOfRecords found.fault) }
    ensures ends { (files : List (List ℕ)) (stop : Stop) → AreHeld (F.held shelf.old) (texts names.now) files → AreLeft interface captures.old files [] stop
        → EndCut stop result }
{
    let Some((name, names)) = names.split_first() else {
        return Ok(false);
    };
    let Some((capture, captures)) = captures.split_first_mut() else {
        return Ok(false);
    };
    match ends_cut(capture, shelf, name) {
        Ok(true) => Ok(true),
        Ok(false) => is_cut(captures, shelf, names, interface + 1),
        Err(fault) => Err(CaptureFault { interface, fault }),
    }
}

// Whether a capture is cut short, of which no frame is left.
fn ends_cut<F: Shelf>(capture: &mut Capture, shelf: &mut F, name: &str) -> Result<bool, PcapFault>
    ensures shelf { KeepsShelf F.held F.faults shelf.old shelf.new (λ each. each ≡ name.now) (result ≡ Err PcapFault.Read) }
    ensures cause { IfErr result (λ fault. fault ≡ PcapFault.Read → Rose (F.faults shelf.old name.now) (F.faults shelf.new name.now)) }
    ensures kinds { IfErr result IsOfRecords }
    ensures ends { (interface : ℕ) (bytes : List ℕ) (stop : Stop) → F.held shelf.old name.now ≡ File bytes → Leaves interface (progress_of capture.old) bytes [] stop
        → EndsCut stop result }
{
    match capture.next(shelf, name) {
        Ok(Step::Cut(_)) => Ok(true),
        Ok(Step::End) => Ok(false),
        Ok(Step::Next(_)) => Ok(false),
        Err(fault) => Err(fault),
    }
}
