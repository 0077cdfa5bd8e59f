// Which frame comes next.
ghost use Rattle.std.specs.Prelude.{◌≡◌, ◌<◌, ◌+◌, ◌^◌, ℕ, List, length, Err, IfOk, IfErr};
ghost use Rattle.rm_edge.specs.Shelves.{KeepsShelf};
ghost use Rattle.rm_model.specs.Journal.{Frame};
ghost use Rattle.rm_pcap.specs.Records.{Stop};
ghost use Rattle.rm_captures.specs.Left.{AreLeft, FindsNext, IsOfRecords, LooksAll, sooner};
ghost use Rattle.rm_captures.specs.Reading.{texts, AreHeld, IsOneOf, OneRose};

use crate::fault::CaptureFault;
use rm_edge::Shelf;
use rm_pcap::{Capture, PcapFault};

/// A frame that comes next.
#[derive(Clone, Copy, Debug, PartialEq, Eq)]
pub struct Coming {
    /// The number of its interface.
    pub interface: u32,
    /// Its moment, in milliseconds.
    pub moment: u32,
}

/// Which frame comes next of some captures, whose interfaces are those from a number on: the one with the least moment, at one moment that of the
/// lowest interface. None where no frame is left.
///
/// The faults are those of the captures, in order of their interfaces. It takes no memory.
// It is inlined, since each frame that is read passes through here.
#[inline(always)]
#[cycle(coming)]
pub fn next_of<F: Shelf>(
    captures: &mut [Capture],
    shelf: &mut F,
    names: &[&str],
    interface: u32,
) -> Result<Option<Coming>, CaptureFault>
    requires low { interface + length names.now < 2 ^ 32 }
    ensures shelf { KeepsShelf F.held F.faults shelf.old shelf.new (IsOneOf (texts names.now)) ((at : ℕ) × (result ≡ Err (record { interface = at; fault = PcapFault.Read }))) }
    ensures cause { IfErr result (λ found. found.fault ≡ PcapFault.Read → OneRose (F.faults shelf.old) (F.faults shelf.new) (texts names.now)) }
    ensures kinds { IfErr result (λ found. IsOfRecords found.fault) }
    ensures looks { IfOk result (LooksAll (F.held shelf.old) interface (texts names.now) captures.old captures.new) }
    ensures next { (files : List (List ℕ)) (frames : List Frame) (stop : Stop) → AreHeld (F.held shelf.old) (texts names.now) files
        → AreLeft interface captures.old files frames stop → FindsNext frames result × AreLeft interface captures.new files frames stop }
{
    let Some((name, names)) = names.split_first() else {
        return Ok(None);
    };
    let Some((capture, captures)) = captures.split_first_mut() else {
        return Ok(None);
    };
    let own = match capture.peek(shelf, name) {
        Ok(moment) => moment,
        Err(fault) => return Err(CaptureFault { interface, fault }),
    };
    if names.is_empty() {
        return Ok(sooner(interface, own, None));
    }
    match next_behind(captures, shelf, names, interface + 1) {
        Ok(others) => Ok(sooner(interface, own, others)),
        Err(found) => Err(found),
    }
}

// The sooner of the frame of an interface, if it has one, and of one of another interface with a higher number.
fn sooner(interface: u32, own: Option<u32>, other: Option<Coming>) -> Option<Coming>
    ensures { result ≡ sooner interface own other }
{
    match (own, other) {
        (None, other) => other,
        (Some(moment), Some(coming)) if coming.moment < moment => Some(coming),
        (Some(moment), _) => Some(Coming { interface, moment }),
    }
}

// The same, as a call of its own.
#[cycle(coming)]
fn next_behind<F: Shelf>(
    captures: &mut [Capture],
    shelf: &mut F,
    names: &[&str],
    interface: u32,
) -> Result<Option<Coming>, CaptureFault>
    requires low { interface + length names.now < 2 ^ 32 }
    ensures shelf { KeepsShelf F.held F.faults shelf.old shelf.new (IsOneOf (texts names.now)) ((at : ℕ) × (result ≡ Err (record { interface = at; fault = PcapFault.Read }))) }
    ensures cause { IfErr result (λ found. found.fault ≡ PcapFault.Read → OneRose (F.faults shelf.old) (F.faults shelf.new) (texts names.now)) }
    ensures kinds { IfErr result (λ found. IsOfRecords found.fault) }
    ensures looks { IfOk result (LooksAll (F.held shelf.old) interface (texts names.now) captures.old captures.new) }
    ensures next { (files : List (List ℕ)) (frames : List Frame) (stop : Stop) → AreHeld (F.held shelf.old) (texts names.now) files
        → AreLeft interface captures.old files frames stop → FindsNext frames result × AreLeft interface captures.new files frames stop }
{
    next_of(captures, shelf, names, interface)
}
