// The top call.
ghost use Rattle.std.specs.Prelude.{◌≡◌, ◌⊎◌, ◌≤◌, length, map};
ghost use Rattle.rm_edge.specs.Shelves.{KeepsShelf};
ghost use Rattle.rm_edge.specs.Uses.{file_use, sink_use};
ghost use Rattle.rm_captures.specs.Reading.{IsOneOf, texts};
ghost use Rattle.rm_settings.specs.Interfaces.{IsLadder};
ghost use Rattle.rm_probe.specs.Capture.{names_of};
ghost use Rattle.rm_probe.specs.Ends.{Ends, IsComplete, IsExact, IsSilent};
ghost use Rattle.rm_probe.specs.declared.status.Status.TheVariants.{ReadFault};

use crate::judging::judge;
use crate::names::Names;
use crate::probe::Probe;
use crate::replaying::write_run;
use crate::status::Status;
use rm_edge::{Shelf, Sink};
use rm_pcap::one_reading;
use rm_settings::Settings;
use std::alloc::Global;

/// Replays captures against the datagrams of a request file: `capture` on interface 1, and on interfaces 2 to 4 those that are named. Their
/// earliest first record stands at the moment `lead` in milliseconds. It writes one line for each datagram and one for each notification, and a
/// last line.
///
/// The captures are judged first, in two rounds, and then the request file, a line at a time. Only then is anything
/// written, and all are read again meanwhile. After `WriteFault` and `ReadFault` a front of the text may have been
/// written. Over a shelf that tells what it holds, nothing was written after the others but `Done`. Over one that
/// doesn't, the files may be other ones when they are read again, and `BadCapture`, `BadRequests` and `TooLong` may come
/// after lines were written. `Usage` and `LinkFault` never come.
pub fn replay<F: Shelf, K: Sink>(
    alloc: Global,
    settings: Settings,
    lead: u32,
    capture: &str,
    if2: Option<&str>,
    if3: Option<&str>,
    if4: Option<&str>,
    requests: &str,
    shelf: &mut F,
    out: &mut K,
) -> Status
    requires ladder { IsLadder if2 if3 if4 }
    requires many { length (names_of capture.now if2 if3 if4) ≡ settings.interfaces }
    // The whole truth of each status, `Done` among them: the octets added are exactly a text of all files.
    ensures ends { Ends settings lead (map (file_use F.held F.faults shelf.old shelf.new) (names_of capture.now if2.entry if3.entry if4.entry))
        (file_use F.held F.faults shelf.old shelf.new requests.now) (sink_use K.content K.faults out.old out.new) result }
    ensures exact { IsExact lead (map (F.held shelf.old) (names_of capture.now if2.entry if3.entry if4.entry)) (F.held shelf.old requests.now) result }
    ensures complete { IsComplete lead (map (file_use F.held F.faults shelf.old shelf.new) (names_of capture.now if2.entry if3.entry if4.entry))
        (file_use F.held F.faults shelf.old shelf.new requests.now) (sink_use K.content K.faults out.old out.new) result }
    ensures silent { IsSilent result → K.content out.new ≡ K.content out.old }

    // The shelf keeps what it holds, and its counts but for failed reads of these files. The count of failed puts doesn't fall.
    ensures shelf { KeepsShelf F.held F.faults shelf.old shelf.new (λ each. IsOneOf (names_of capture.now if2.entry if3.entry if4.entry) each ⊎ (each ≡ requests.now))
        (result ≡ ReadFault) }
    ensures later { K.faults out.old ≤ K.faults out.new }
{
    let names = Names::new(capture, if2, if3, if4);
    replay_captures(
        alloc,
        settings,
        lead,
        names.as_slice(),
        requests,
        shelf,
        out,
    )
}

// Replays captures, up to four, that have these names.
fn replay_captures<F: Shelf, K: Sink>(
    alloc: Global,
    settings: Settings,
    lead: u32,
    names: &[&str],
    requests: &str,
    shelf: &mut F,
    out: &mut K,
) -> Status
    requires few { length names.now ≤ 4 }
    ensures ends { Ends settings lead (map (file_use F.held F.faults shelf.old shelf.new) (texts names.now)) (file_use F.held F.faults shelf.old shelf.new requests.now)
        (sink_use K.content K.faults out.old out.new) result }
    ensures exact { IsExact lead (map (F.held shelf.old) (texts names.now)) (F.held shelf.old requests.now) result }
    ensures complete { IsComplete lead (map (file_use F.held F.faults shelf.old shelf.new) (texts names.now)) (file_use F.held F.faults shelf.old shelf.new requests.now)
        (sink_use K.content K.faults out.old out.new) result }
    ensures silent { IsSilent result → K.content out.new ≡ K.content out.old }
    ensures shelf { KeepsShelf F.held F.faults shelf.old shelf.new (λ each. IsOneOf (texts names.now) each ⊎ (each ≡ requests.now)) (result ≡ ReadFault) }
    ensures later { K.faults out.old ≤ K.faults out.new }
{
    one_reading();
    let Ok(probe) = Probe::new(alloc, settings) else {
        return Status::NoMemory;
    };
    match judge(alloc, lead, names, requests, shelf) {
        Ok(mut reader) => write_run(alloc, shelf, names, lead, probe, requests, &mut reader, out),
        Err(status) => status,
    }
}
