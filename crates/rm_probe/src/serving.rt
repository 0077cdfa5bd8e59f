// The run that answers the datagrams of a link.
ghost use Rattle.std.specs.Prelude.{◌≡◌, ◌≤◌, ℕ, List, [], ◌∷◌, Err, OnOk, IfErr, IfOk, length, map};
ghost use Rattle.rm_edge.specs.Outside.{Rose};
ghost use Rattle.rm_edge.specs.Shelves.{KeepsShelf};
ghost use Rattle.rm_edge.specs.Uses.{clock_use, file_use, link_use, sink_use};
ghost use Rattle.rm_model.specs.Journal.{Frame, Journal};
ghost use Rattle.rm_pcap.specs.Records.{Stop};
ghost use Rattle.rm_captures.specs.Left.{AreLeft, passed_of};
ghost use Rattle.rm_captures.specs.Reading.{AreHeld, IsOneOf, OneRose, texts};
ghost use Rattle.rm_settings.specs.Interfaces.{IsLadder};
ghost use Rattle.rm_probe.specs.Capture.{names_of};
ghost use Rattle.rm_probe.specs.Probe.{IsFresh, Stands, last_given, settings_of};
ghost use Rattle.rm_probe.specs.Said.{Said};
ghost use Rattle.rm_probe.specs.Serving.{Arrival, Serves, ServesExactly, asking_of, local_port, peers_of};
ghost use Rattle.rm_probe.specs.Steps.{AreNotLeft, FindsAnother, IsForeign, IsOfOne, IsResponse, JudgesCaptures, Keeps, ends_by};
ghost use Rattle.rm_probe.specs.Ready.{IsReady};
ghost use Rattle.rm_probe.specs.Turns.{HasServed, ReceivesOne, SaysServed, SaysTurn, room};
ghost use Rattle.rm_probe.specs.declared.status.Status.TheVariants.{ReadFault};

use crate::judging::judge_captures;
use crate::laws::something_said;
use crate::names::Names;
use crate::output::Output;
use crate::post::Posted;
use crate::probe::Probe;
use crate::replaying::{NumberedDatagram, Replaying, ended};
use crate::status::Status;
use rm_captures::begin;
use rm_edge::{Clock, Link, Peer, Shelf, Sink};
use rm_pcap::one_reading;
use rm_settings::Settings;
use std::alloc::Global;

// One octet more than is read of a datagram: a longer one is too long whatever follows.
const ROOM: usize = 8193;

/// Captures whose frames pass by a probe, and datagrams that come to it.
#[derive(Drop)]
struct Serving {
    replaying: Replaying,
    // Room for a datagram.
    datagram: Vec<u8>,
    // Who is told of notifications.
    manager: Peer,
    // The moment of the last datagram, in milliseconds, 0 before the first.
    last: u32,
}

impl Serving {
    // Receives a datagram, and takes the moment that the clock then tells; one earlier than the last is taken as the last. It answers
    // who sent it, and how many of its octets stand in the room.
    fn receive<L: Link, T: Clock>(
        &mut self,
        link: &mut L,
        clock: &mut T,
    ) -> Result<(Peer, usize), Status>
        requires room { length self.old.datagram.items ≡ room }
        ensures room { length self.new.datagram.items ≡ room }
        ensures replaying { self.new.replaying ≡ self.old.replaying }
        ensures manager { self.new.manager ≡ self.old.manager }
        ensures rises { self.old.last ≤ self.new.last }
        ensures receives { ReceivesOne (L.received link.old) (L.received link.new) (T.told clock.old) (T.told clock.new) self.old.last self.new.last
            self.new.datagram.items result }
        ensures bound { L.bound link.new ≡ L.bound link.old }
        ensures sent { L.sent link.new ≡ L.sent link.old }
        ensures later { L.faults link.old ≤ L.faults link.new }
        ensures cause { IfErr result (λ status. Rose (L.faults link.old) (L.faults link.new)) }
    {
        match link.receive(&mut self.datagram) {
            Ok(found) => {
                self.last = self.last.max(clock.now());
                Ok(found)
            }
            Err(_) => Err(Status::LinkFault),
        }
    }

    // Receives the datagram of that number, hands the probe what happens up to it, writes what is said of that, and sends the messages.
    fn serve_one<F: Shelf, K: Sink, L: Link, T: Clock>(
        &mut self,
        alloc: Global,
        shelf: &mut F,
        names: &[&str],
        number: u64,
        out: &mut K,
        link: &mut L,
        clock: &mut T,
    ) -> Result<(), Status>
        requires few { length names.now ≤ 4 }
        requires room { length self.old.datagram.items ≡ room }
        requires later { last_given self.old.replaying.probe ≤ self.old.last }
        requires keeps { Keeps (length names.now) (last_given self.old.replaying.probe) self.old.replaying.probe self.old.replaying.captures.items }
        ensures room { length self.new.datagram.items ≡ room }
        ensures served { (arrivals : List Arrival) × (said : List Said) × HasServed self.old.manager (λ number. peers_of arrivals) self.old.last
            (sink_use K.content K.faults out.old out.new) (link_use L.bound L.received L.sent L.faults link.old link.new) (clock_use T.told clock.old clock.new)
            arrivals said result
            × IsOfOne number said
            × OnOk result (IsResponse number said × ((arrival : Arrival) × (arrivals ≡ arrival ∷ []) × (arrival.moment ≡ self.new.last)))
            × (length arrivals ≤ 1)
            × ((files : List (List ℕ)) (frames : List Frame) (stop : Stop) (journal : Journal) → AreHeld (F.held shelf.old) (texts names.now) files
            → AreLeft 1 self.old.replaying.captures.items files frames stop → Stands self.old.replaying.probe journal
            → SaysTurn files self.old.replaying.captures.items self.new.replaying.captures.items (settings_of self.old.replaying.probe)
            self.new.replaying.probe number frames stop journal arrivals said result) }
        ensures shelf { KeepsShelf F.held F.faults shelf.old shelf.new (IsOneOf (texts names.now)) (result ≡ Err ReadFault) }
        ensures manager { self.new.manager ≡ self.old.manager }
        ensures settings { settings_of self.new.replaying.probe ≡ settings_of self.old.replaying.probe }
        ensures keeps { OnOk result (Keeps (length names.now) (last_given self.new.replaying.probe) self.new.replaying.probe self.new.replaying.captures.items) }
        ensures given { OnOk result (last_given self.new.replaying.probe ≡ self.new.last) }
        ensures reads { result ≡ Err ReadFault → OneRose (F.faults shelf.old) (F.faults shelf.new) (texts names.now) }
        ensures loud { IfErr result (λ status. IsForeign status → ⊥) }
    {
        let (peer, count) = self.receive(link, clock)?;
        let request = NumberedDatagram {
            number,
            moment: self.last,
            datagram: &self.datagram[..count],
        };
        let post = Posted {
            link,
            manager: self.manager,
            peer,
        };
        let mut output = Output::posting(out, post);
        self.replaying
            .handle_to(alloc, shelf, names, request, &mut output)
    }

    // Serves so many datagrams, and writes the last line.
    fn serve_all<F: Shelf, K: Sink, L: Link, T: Clock>(
        &mut self,
        alloc: Global,
        shelf: &mut F,
        names: &[&str],
        count: u32,
        out: &mut K,
        link: &mut L,
        clock: &mut T,
    ) -> Result<(), Status>
        requires few { length names.now ≤ 4 }
        requires room { length self.old.datagram.items ≡ room }
        requires first { IsFresh self.old.replaying.probe }
        requires begun { Keeps (length names.now) 0 self.old.replaying.probe self.old.replaying.captures.items }
        requires unpassed { passed_of self.old.replaying.captures.items ≡ 0 }
        requires none { self.old.last ≡ 0 }
        ensures served { (arrivals : List Arrival) × (said : List Said) × HasServed self.old.manager (asking_of arrivals) 0
            (sink_use K.content K.faults out.old out.new) (link_use L.bound L.received L.sent L.faults link.old link.new) (clock_use T.told clock.old clock.new)
            arrivals said result
            × (length arrivals ≤ count) × OnOk result (length arrivals ≡ count)
            × ((files : List (List ℕ)) (frames : List Frame) (stop : Stop) → AreHeld (F.held shelf.old) (texts names.now) files
            → AreLeft 1 self.old.replaying.captures.items files frames stop
            → SaysServed (settings_of self.old.replaying.probe) frames stop arrivals said result) }
        ensures finds { FindsAnother (AreNotLeft (F.held shelf.old) (texts names.now) self.old.replaying.captures.items) ⊥ (ends_by result) }
        ensures reads { result ≡ Err ReadFault → OneRose (F.faults shelf.old) (F.faults shelf.new) (texts names.now) }
        ensures shelf { KeepsShelf F.held F.faults shelf.old shelf.new (IsOneOf (texts names.now)) (result ≡ Err ReadFault) }
        ensures loud { IfErr result (λ status. IsForeign status → ⊥) }
    {
        something_said();
        let mut number = 0;
        while number < count {
            number += 1;
            match self.serve_one(alloc, shelf, names, u64::from(number), out, link, clock) {
                Ok(()) => (),
                Err(status) => return Err(status),
            }
        }
        let mut output = Output::new(out);
        self.replaying
            .put_last(shelf, names, u64::from(count), &mut output)
    }
}

// Judges the captures, and makes ready to serve them: the probe, the captures at their first records, and room for a datagram.
fn prepare<F: Shelf>(
    alloc: Global,
    settings: Settings,
    lead: u32,
    names: &[&str],
    trap_port: u16,
    shelf: &mut F,
) -> Result<Serving, Status>
    requires few { length names.now ≤ 4 }
    ensures judged { JudgesCaptures lead (map (F.held shelf.old) (texts names.now)) (OneRose (F.faults shelf.old) (F.faults shelf.new) (texts names.now)) result }
    ensures shelf { KeepsShelf F.held F.faults shelf.old shelf.new (IsOneOf (texts names.now)) (result ≡ Err ReadFault) }
    ensures ready { IfOk result (IsReady settings lead (local_port trap_port) (F.held shelf.old) (texts names.now)) }
{
    let Ok(probe) = Probe::new(alloc, settings) else {
        return Err(Status::NoMemory);
    };
    let Ok(datagram) = vec![in alloc; 0u8; ROOM] else {
        return Err(Status::NoMemory);
    };
    match judge_captures(alloc, lead, names, shelf) {
        Ok(()) => (),
        Err(status) => return Err(status),
    }
    match begin(alloc, shelf, names, lead) {
        Ok(captures) => Ok(Serving {
            replaying: Replaying { captures, probe },
            datagram,
            manager: Peer {
                ip: [127, 0, 0, 1],
                port: trap_port,
            },
            last: 0,
        }),
        Err(found) => Err(Status::from(found)),
    }
}

/// Serves captures: `capture` on interface 1, and on interfaces 2 to 4 those that are named. Their earliest first record stands at the moment
/// `lead` in milliseconds. It binds a port, receives so many datagrams, and answers each at the moment that the clock then tells, after the frames
/// up to it. A moment earlier than the last is taken as the last. Each line is written before what it tells is sent: a reply to who asked, and a
/// notification to the port `trap_port` of this machine. A datagram is received only once the one before it is answered.
///
/// The captures are judged first, in two rounds. Only then is the port bound, and the captures are read again while datagrams come. After
/// `WriteFault`, `ReadFault` and `LinkFault` a front of the text may have been written, and the messages of its whole lines sent, maybe but for that
/// of the last. Over a shelf that tells what it holds, no port was bound and nothing written after the others but `Done`. Over one that doesn't,
/// the files may be other ones when they are read again, and `BadCapture` and `TooLong` may come after lines were written. `Usage` and `BadRequests`
/// never come.
pub fn serve<F: Shelf, K: Sink, L: Link, T: Clock>(
    alloc: Global,
    settings: Settings,
    lead: u32,
    capture: &str,
    if2: Option<&str>,
    if3: Option<&str>,
    if4: Option<&str>,
    port: u16,
    count: u32,
    trap_port: u16,
    shelf: &mut F,
    out: &mut K,
    link: &mut L,
    clock: &mut T,
) -> Status
    requires ladder { IsLadder if2 if3 if4 }
    requires many { length (names_of capture.now if2 if3 if4) ≡ settings.interfaces }
    ensures serves { Serves settings lead port count (local_port trap_port) (map (file_use F.held F.faults shelf.old shelf.new) (names_of capture.now if2.entry if3.entry if4.entry))
        (sink_use K.content K.faults out.old out.new) (link_use L.bound L.received L.sent L.faults link.old link.new) (clock_use T.told clock.old clock.new) result }
    ensures exact { ServesExactly lead (map (file_use F.held F.faults shelf.old shelf.new) (names_of capture.now if2.entry if3.entry if4.entry)) (sink_use K.content K.faults out.old out.new)
        (link_use L.bound L.received L.sent L.faults link.old link.new) result }
    ensures shelf { KeepsShelf F.held F.faults shelf.old shelf.new (IsOneOf (names_of capture.now if2.entry if3.entry if4.entry)) (result ≡ ReadFault) }
    ensures later { (K.faults out.old ≤ K.faults out.new) × (L.faults link.old ≤ L.faults link.new) }
{
    let names = Names::new(capture, if2, if3, if4);
    serve_captures(
        alloc,
        settings,
        lead,
        names.as_slice(),
        port,
        count,
        trap_port,
        shelf,
        out,
        link,
        clock,
    )
}

// Serves captures, up to four, that have these names.
fn serve_captures<F: Shelf, K: Sink, L: Link, T: Clock>(
    alloc: Global,
    settings: Settings,
    lead: u32,
    names: &[&str],
    port: u16,
    count: u32,
    trap_port: u16,
    shelf: &mut F,
    out: &mut K,
    link: &mut L,
    clock: &mut T,
) -> Status
    requires few { length names.now ≤ 4 }
    ensures serves { Serves settings lead port count (local_port trap_port) (map (file_use F.held F.faults shelf.old shelf.new) (texts names.now))
        (sink_use K.content K.faults out.old out.new) (link_use L.bound L.received L.sent L.faults link.old link.new) (clock_use T.told clock.old clock.new) result }
    ensures exact { ServesExactly lead (map (file_use F.held F.faults shelf.old shelf.new) (texts names.now)) (sink_use K.content K.faults out.old out.new)
        (link_use L.bound L.received L.sent L.faults link.old link.new) result }
    ensures shelf { KeepsShelf F.held F.faults shelf.old shelf.new (IsOneOf (texts names.now)) (result ≡ ReadFault) }
    ensures later { (K.faults out.old ≤ K.faults out.new) × (L.faults link.old ≤ L.faults link.new) }
{
    one_reading();
    let mut serving = match prepare(alloc, settings, lead, names, trap_port, shelf) {
        Ok(serving) => serving,
        Err(status) => return status,
    };
    match link.bind(port) {
        Ok(()) => ended(serving.serve_all(alloc, shelf, names, count, out, link, clock)),
        Err(_) => Status::LinkFault,
    }
}
