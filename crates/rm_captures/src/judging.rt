// The second round: each capture is read to its end.
ghost use Rattle.std.specs.Prelude.{◌≡◌, ◌⊎◌, ◌≤◌, ◌<◌, ◌+◌, ◌^◌, ℕ, List, Option, map, length, Err, IfOk, IfErr};
ghost use Rattle.rm_edge.specs.Outside.{File, Rose};
ghost use Rattle.rm_edge.specs.Shelves.{KeepsShelf};
ghost use Rattle.rm_pcap.specs.View.{progress_of};
ghost use Rattle.rm_pcap.specs.Progress.{Agrees};
ghost use Rattle.rm_captures.specs.Rounds.{AreCaptureFiles};
ghost use Rattle.rm_captures.specs.Told.{CallFor, OfFiles};
ghost use Rattle.rm_captures.specs.Reading.{texts, AreHeld, AreReady, EndsRound, IsExcused, IsOneOf, Judges, OneRose, ReadsOn};

use crate::beginning::{FIRST, begin};
use crate::fault::CaptureFault;
use rm_edge::Shelf;
use rm_pcap::{Capture, PcapFault, Step};
use std::alloc::Global;

// Reads a capture from where it is to its end.
fn read_on<F: Shelf>(capture: &mut Capture, shelf: &mut F, name: &str) -> Result<(), PcapFault>
    ensures shelf { KeepsShelf F.held F.faults shelf.old shelf.new (λ each. each ≡ name.now) (result ≡ Err PcapFault.Read) }
    ensures cause { IfErr result (λ fault. fault ≡ PcapFault.Read → Rose (F.faults shelf.old name.now) (F.faults shelf.new name.now)) }
    ensures reads { (bytes : List ℕ) → F.held shelf.old name.now ≡ File bytes → Agrees (progress_of capture.old) bytes → ReadsOn (progress_of capture.old) bytes result }
{
    loop {
        match capture.next(shelf, name) {
            Ok(Step::Next(_)) => (),
            Ok(Step::End) => return Ok(()),
            Ok(Step::Cut(_)) => return Ok(()),
            Err(fault) => return Err(fault),
        }
    }
}

// Reads captures to their ends, one by one, whose interfaces are those from a number on.
fn read_each<F: Shelf>(
    captures: &mut [Capture],
    shelf: &mut F,
    names: &[&str],
    interface: u32,
) -> Result<(), CaptureFault>
    requires low { interface + length names.now < 2 ^ 32 }
    ensures shelf { KeepsShelf F.held F.faults shelf.old shelf.new (IsOneOf (texts names.now)) ((at : ℕ) × (result ≡ Err (record { interface = at; fault = PcapFault.Read }))) }
    ensures cause { IfErr result (λ found. found.fault ≡ PcapFault.Read → OneRose (F.faults shelf.old) (F.faults shelf.new) (texts names.now)) }
    ensures round { (base : Option ℕ) (lead : ℕ) (files : List (List ℕ)) → AreHeld (F.held shelf.old) (texts names.now) files
        → AreReady base lead interface files captures.old → EndsRound base lead interface files result }
{
    let Some((name, names)) = names.split_first() else {
        return Ok(());
    };
    let Some((capture, captures)) = captures.split_first_mut() else {
        return Ok(());
    };
    match read_on(capture, shelf, name) {
        Ok(()) => read_each(captures, shelf, names, interface + 1),
        Err(fault) => Err(CaptureFault { interface, fault }),
    }
}

/// Judges the captures of up to four files, which are those of the interfaces from 1 on, and at whose beginning that moment stands, in
/// milliseconds: in two rounds, in each one by one. The first round judges the header of each and the lengths of its first record, the second the
/// whole of each.
///
/// The fault is the first in this order. Read comes only where a read failed, also where a name has no file, and NoMemory where there is no memory
/// for a window.
pub fn judge<F: Shelf>(
    alloc: Global,
    shelf: &mut F,
    names: &[&str],
    lead: u32,
) -> Result<(), CaptureFault>
    requires few { length names.now ≤ 4 }
    ensures shelf { KeepsShelf F.held F.faults shelf.old shelf.new (IsOneOf (texts names.now)) ((at : ℕ) × (result ≡ Err (record { interface = at; fault = PcapFault.Read }))) }
    ensures cause { IfErr result (λ found. found.fault ≡ PcapFault.Read → OneRose (F.faults shelf.old) (F.faults shelf.new) (texts names.now)) }
    ensures judged { (files : List (List ℕ)) → AreHeld (F.held shelf.old) (texts names.now) files → Judges lead files result }
    ensures good { IfOk result (λ done. OfFiles (map (F.held shelf.old) (texts names.now)) (AreCaptureFiles lead)) }
    ensures faults { IfErr result (λ found. IsExcused found.fault ⊎ CallFor lead (map (F.held shelf.old) (texts names.now)) found) }
{
    match begin(alloc, shelf, names, lead) {
        Ok(mut captures) => read_each(captures.as_mut_slice(), shelf, names, FIRST),
        Err(found) => Err(found),
    }
}
