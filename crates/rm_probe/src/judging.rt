// All files, which are judged before anything is written.
ghost use Rattle.std.specs.Prelude.{◌≡◌, ◌⊎◌, ◌≤◌, Err, length, map};
ghost use Rattle.rm_edge.specs.Shelves.{KeepsShelf};
ghost use Rattle.rm_edge.specs.Uses.{file_use};
ghost use Rattle.rm_captures.specs.Reading.{IsOneOf, OneRose, texts};
ghost use Rattle.rm_probe.specs.Ends.{JudgesFiles};
ghost use Rattle.rm_probe.specs.Steps.{JudgesCaptures};
ghost use Rattle.rm_probe.specs.declared.status.Status.TheVariants.{ReadFault};

use crate::requests;
use crate::status::Status;
use rm_edge::Shelf;
use rm_requests::Requests;
use std::alloc::Global;

/// Judges all files, the captures first. It answers what reads the request file again from its first line on.
pub fn judge<F: Shelf>(
    alloc: Global,
    lead: u32,
    names: &[&str],
    requests: &str,
    shelf: &mut F,
) -> Result<Requests, Status>
    requires few { length names.now ≤ 4 }
    ensures shelf { KeepsShelf F.held F.faults shelf.old shelf.new (λ each. IsOneOf (texts names.now) each ⊎ (each ≡ requests.now)) (result ≡ Err ReadFault) }
    ensures judged { JudgesFiles lead (map (file_use F.held F.faults shelf.old shelf.new) (texts names.now))
        (file_use F.held F.faults shelf.old shelf.new requests.now) result }
{
    match judge_captures(alloc, lead, names, shelf) {
        Ok(()) => (),
        Err(status) => return Err(status),
    }
    let Ok(mut reader) = Requests::new(alloc) else {
        return Err(Status::NoMemory);
    };
    match requests::judge(&mut reader, shelf, requests) {
        Ok(()) => {
            reader.rewind();
            Ok(reader)
        }
        Err(fault) => Err(Status::of_requests(fault)),
    }
}

/// Judges captures in two rounds, and tells the status of their first fault, if they have one.
pub fn judge_captures<F: Shelf>(
    alloc: Global,
    lead: u32,
    names: &[&str],
    shelf: &mut F,
) -> Result<(), Status>
    requires few { length names.now ≤ 4 }
    ensures shelf { KeepsShelf F.held F.faults shelf.old shelf.new (IsOneOf (texts names.now)) (result ≡ Err ReadFault) }
    ensures judged { JudgesCaptures lead (map (F.held shelf.old) (texts names.now)) (OneRose (F.faults shelf.old) (F.faults shelf.new) (texts names.now)) result }
{
    match rm_captures::judge(alloc, shelf, names, lead) {
        Ok(()) => Ok(()),
        Err(found) => Err(Status::from(found)),
    }
}
