// The first round: each capture is begun, and its first record seen.
ghost use Rattle.std.specs.Prelude.{◌≡◌, ◌⊎◌, ◌≤◌, ◌<◌, ◌+◌, ◌^◌, ◌++◌, ℕ, List, Option, None, Some, length, Err, Ok, map, IfOk, IfErr};
ghost use Rattle.rm_edge.specs.Outside.{Absent, File, Rose};
ghost use Rattle.rm_edge.specs.Shelves.{KeepsShelf};
ghost use Rattle.rm_pcap.specs.View.{progress_of};
ghost use Rattle.rm_pcap.specs.Progress.{IsUnseen};
ghost use Rattle.rm_pcap.specs.declared.capture.Capture.{Capture as Begun};
ghost use Rattle.rm_captures.specs.Rounds.{earlier, first_round};
ghost use Rattle.rm_captures.specs.Told.{ArePresent, IsEarly};
ghost use Rattle.rm_captures.specs.Reading.{texts, AreHeld, AreReady, AreUnseen, BeginsOne, IsExcused, IsOneOf, OneRose};

use crate::fault::CaptureFault;
use rm_edge::Shelf;
use rm_pcap::{Capture, PcapFault};
use std::alloc::Global;

/// The number of the first interface.
pub const FIRST: u32 = 1;

// The earlier of two times, where there are both.
fn earlier(time: Option<u64>, other: Option<u64>) -> Option<u64>
    ensures { result ≡ earlier time other }
{
    match (time, other) {
        (Some(time), Some(other)) => Some(time.min(other)),
        (Some(time), None) => Some(time),
        (None, other) => other,
    }
}

// Begins the capture of an interface, and tells the time of its first record, where that is whole.
fn begin_one<F: Shelf>(
    alloc: Global,
    shelf: &mut F,
    name: &str,
    interface: u32,
    lead: u32,
) -> Result<(Capture, Option<u64>), PcapFault>
    ensures shelf { KeepsShelf F.held F.faults shelf.old shelf.new (λ each. each ≡ name.now) (result ≡ Err PcapFault.Read) }
    ensures cause { IfErr result (λ fault. fault ≡ PcapFault.Read → Rose (F.faults shelf.old name.now) (F.faults shelf.new name.now)) }
    ensures absent { F.held shelf.old name.now ≡ Absent → result ≡ Err PcapFault.Read }
    ensures unseen { IfOk result (λ begun. IsUnseen (progress_of begun.0)) }
    ensures begins { (bytes : List ℕ) → F.held shelf.old name.now ≡ File bytes → BeginsOne lead interface bytes result }
{
    let mut capture = match Capture::begin(alloc, shelf, name, interface, lead) {
        Ok(capture) => capture,
        Err(fault) => return Err(fault),
    };
    match capture.first(shelf, name) {
        Ok(time) => Ok((capture, time)),
        Err(fault) => Err(fault),
    }
}

// Begins the captures of the interfaces from a number on, and tells the earliest time of a first record.
fn begin_each<F: Shelf>(
    alloc: Global,
    shelf: &mut F,
    names: &[&str],
    interface: u32,
    lead: u32,
    captures: &mut Vec<Capture>,
) -> Result<Option<u64>, CaptureFault>
    requires low { interface + length names.now < 2 ^ 32 }
    ensures shelf { KeepsShelf F.held F.faults shelf.old shelf.new (IsOneOf (texts names.now)) ((at : ℕ) × (result ≡ Err (record { interface = at; fault = PcapFault.Read }))) }
    ensures cause { IfErr result (λ found. found.fault ≡ PcapFault.Read → OneRose (F.faults shelf.old) (F.faults shelf.new) (texts names.now)) }
    ensures begun { IfOk result (λ base. (begun : List Begun) × (captures.new.items ≡ captures.old.items ++ begun) × AreUnseen begun × (length begun ≡ length names.now)
        × ((files : List (List ℕ)) → AreHeld (F.held shelf.old) (texts names.now) files
        → (first_round lead interface files ≡ Ok base) × AreReady None lead interface files begun)) }
    ensures present { IfOk result (λ base. ArePresent (F.held shelf.old) (texts names.now)) }
    ensures early { IfErr result (λ found. IsExcused found.fault ⊎ IsEarly lead interface (map (F.held shelf.old) (texts names.now)) found) }
    ensures faults { IfErr result (λ found. (files : List (List ℕ)) → AreHeld (F.held shelf.old) (texts names.now) files
        → IsExcused found.fault ⊎ (first_round lead interface files ≡ Err found)) }
{
    let Some((name, names)) = names.split_first() else {
        return Ok(None);
    };
    match begin_one(alloc, shelf, name, interface, lead) {
        Ok((capture, time)) => {
            if captures.push(capture).is_err() {
                return Err(CaptureFault {
                    interface,
                    fault: PcapFault::NoMemory,
                });
            }
            match begin_each(alloc, shelf, names, interface + 1, lead, captures) {
                Ok(others) => Ok(earlier(time, others)),
                Err(found) => Err(found),
            }
        }
        Err(fault) => Err(CaptureFault { interface, fault }),
    }
}

// Sets the time that stands at the lead of each capture.
fn base_each(captures: &mut [Capture], base: u64)
    requires { AreUnseen captures.old }
    ensures unseen { AreUnseen captures.new }
    ensures ready { (lead interface : ℕ) (files : List (List ℕ)) → AreReady None lead interface files captures.old → AreReady (Some base) lead interface files captures.new }
{
    if let Some((capture, others)) = captures.split_first_mut() {
        capture.based(base);
        base_each(others, base);
    }
}

/// Begins the captures of up to four files, which are those of the interfaces from 1 on: judges their first round, and sets the time that stands at
/// the moment `lead`, in milliseconds, which is the least of their first records.
///
/// The fault is the first of the round. Read comes only where a read failed, and NoMemory where there is no memory for a window.
pub fn begin<F: Shelf>(
    alloc: Global,
    shelf: &mut F,
    names: &[&str],
    lead: u32,
) -> Result<Vec<Capture>, CaptureFault>
    requires few { length names.now ≤ 4 }
    ensures shelf { KeepsShelf F.held F.faults shelf.old shelf.new (IsOneOf (texts names.now)) ((at : ℕ) × (result ≡ Err (record { interface = at; fault = PcapFault.Read }))) }
    ensures cause { IfErr result (λ found. found.fault ≡ PcapFault.Read → OneRose (F.faults shelf.old) (F.faults shelf.new) (texts names.now)) }
    ensures unseen { IfOk result (λ captures. AreUnseen captures.items × (length captures.items ≡ length names.now)) }
    ensures ready { IfOk result (λ captures. (files : List (List ℕ)) → AreHeld (F.held shelf.old) (texts names.now) files
        → (base : Option ℕ) × (first_round lead 1 files ≡ Ok base) × AreReady base lead 1 files captures.items) }
    ensures present { IfOk result (λ captures. ArePresent (F.held shelf.old) (texts names.now)) }
    ensures early { IfErr result (λ found. IsExcused found.fault ⊎ IsEarly lead 1 (map (F.held shelf.old) (texts names.now)) found) }
    ensures faults { IfErr result (λ found. (files : List (List ℕ)) → AreHeld (F.held shelf.old) (texts names.now) files
        → IsExcused found.fault ⊎ (first_round lead 1 files ≡ Err found)) }
{
    let mut captures = Vec::new(alloc);
    match begin_each(alloc, shelf, names, FIRST, lead, &mut captures) {
        Ok(Some(base)) => {
            base_each(captures.as_mut_slice(), base);
            Ok(captures)
        }
        Ok(None) => Ok(captures),
        Err(found) => Err(found),
    }
}
