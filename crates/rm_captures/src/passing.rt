// The next frame is passed.
ghost use Rattle.std.specs.Prelude.{◌≡◌, ◌≤◌, ◌∷◌, ℕ, List, length, Err, IfErr};
ghost use Rattle.std.specs.Borrow.{sem};
ghost use Rattle.rm_edge.specs.Shelves.{KeepsShelf};
ghost use Rattle.rm_model.specs.Journal.{Frame};
ghost use Rattle.rm_pcap.specs.Records.{Stop};
ghost use Rattle.rm_captures.specs.Left.{AreLeft, LeavesNext, StepsOne};
ghost use Rattle.rm_captures.specs.Lending.{EndSo};
ghost use Rattle.rm_captures.specs.Reading.{texts, AreHeld, IsOneOf, OneRose};

use crate::beginning::FIRST;
use crate::fault::CaptureFault;
use rm_edge::Shelf;
use rm_pcap::{Capture, PcapFault, Step};

/// The next record of the capture of an interface, which is passed. Its octets are lent from the captures, whose interfaces are those from 1 on.
///
/// Where `next_of` told that interface, its frame is the one that comes next of all. The faults are those of the capture, and after a fault the
/// captures are as before. It takes no memory.
pub fn pass_next<'a, F: Shelf>(
    captures: &'a mut Vec<Capture>,
    shelf: &mut F,
    names: &[&str],
    interface: u32,
) -> Result<Step<'a>, CaptureFault>
    requires first { 1 ≤ interface }
    requires captured { interface ≤ length captures.old.items }
    requires named { interface ≤ length names.now }
    ensures shelf { KeepsShelf F.held F.faults shelf.old shelf.new (IsOneOf (texts names.now)) ((at : ℕ) × (result ≡ Err (record { interface = at; fault = PcapFault.Read }))) }
    ensures cause { IfErr result (λ found. found.fault ≡ PcapFault.Read → OneRose (F.faults shelf.old) (F.faults shelf.new) (texts names.now)) }
    ensures* after { sem 𝓛 (EndSo captures.entry (λ after. StepsOne (F.held shelf.old) 1 interface (texts names.now) captures.old.items after.items result
        × ((files : List (List ℕ)) (frame : Frame) (more : List Frame) (stop : Stop) → AreHeld (F.held shelf.old) (texts names.now) files → frame.interface ≡ interface
        → AreLeft 1 captures.old.items files (frame ∷ more) stop → LeavesNext (λ frames. AreLeft 1 after.items files frames stop) frame more result))) }
{
    let place = (interface - FIRST) as usize;
    let name = names[place];
    match captures[place].next(shelf, name) {
        Ok(step) => Ok(step),
        Err(fault) => Err(CaptureFault { interface, fault }),
    }
}
