ghost use Rattle.std.specs.Prelude.{◌≡◌, ◌+◌, ℕ, List, IfOk, IfErr, OnErr, None, ⊤};
ghost use Rattle.std.specs.Borrow.{sem};
ghost use denote.Follow.{follows_so};
ghost use mathlib.Core.Option.{none};
ghost use Rattle.rm_edge.specs.Outside.{File, Absent, Rose};
ghost use Rattle.rm_edge.specs.Shelves.{KeepsShelf};
ghost use Rattle.rm_pcap.specs.Seen.{IsAhead, IsNear, FollowsSeen};
ghost use Rattle.rm_pcap.specs.Progress.{Agrees, HasRead, IsUnseen, based_at, begun};
ghost use Rattle.rm_window.specs.Window.{room_of};
ghost use Rattle.rm_pcap.specs.Window.{IsHeld, IsPassed};
ghost use Rattle.rm_pcap.specs.Calls.{LooksAt, LooksFirst, Steps, Fails, IsFirstFault, IsFirstRecordFault, BeginsAs};

use crate::fault::PcapFault;
use crate::frame::{Frame, Step};
use crate::header::{HEADER, header_of};
use crate::position::{Position, time_of};
use crate::reach::Reach;
use crate::record::{Part, RECORD_HEADER, Seen};
use crate::start::Start;
use rm_edge::Shelf;
use rm_window::{Window, fill};
use std::alloc::Global;

/// How many octets the window of a capture has room for.
const ROOM: usize = 327_680;

/// A capture that is read record by record, through a window of its file.
///
/// What its calls say of the file holds where each is given a shelf and a name that hold the octets of `begin`.
#[derive(Drop)]
pub struct Capture {
    position: Position,
    // Its octets stand where the next record does.
    window: Window,
    seen: Option<Seen>,
    ghost near: { IsNear position.reach },
    ghost follows: { IsAhead position.reach seen },
    ghost room: { room_of window ≡ 327680 },
    ghost long: { IsHeld window seen },
}

impl Capture {
    ghost use Rattle.rm_pcap.specs.View.{progress_of, form_begun, KeepsLook, KeepsStep};
    ghost use Rattle.rm_pcap.specs.contracts.capture.Capture.{the_row};

    /// Begins to read a capture of an interface, whose first frame stands at the moment `lead`, in milliseconds, unless `based` says
    /// otherwise: judges its file header, and reserves room for its window.
    ///
    /// Magic, Version and LinkType come in this order, also where the file ends before the octets that are judged.
    /// Read comes only where a read failed. A name without a file always fails with Read. NoMemory comes where there is no
    /// room for the window; nothing else allocates.
    #[tactic(auto, unfolding(crate::specs::View::progress_of))]
    pub fn begin<S: Shelf>(
        alloc: Global,
        shelf: &mut S,
        name: &str,
        interface: u32,
        lead: u32,
    ) -> Result<Capture, PcapFault>
        ensures shelf { KeepsShelf S.held S.faults shelf.old shelf.new (λ each. each ≡ name.now)
            (result ≡ Err PcapFault.Read) }
        ensures cause { IfErr result (λ fault. fault ≡ PcapFault.Read
            → Rose (S.faults shelf.old name.now) (S.faults shelf.new name.now)) }
        ensures absent { S.held shelf.old name.now ≡ Absent → result ≡ Err PcapFault.Read }
        ensures begun { IfOk result (λ capture.
            progress_of capture ≡ begun (progress_of capture).form (record { interface = interface; lead = lead; base = None })) }
        ensures header { (bytes : List ℕ) → S.held shelf.old name.now ≡ File bytes
            → BeginsAs bytes (form_begun result) }
        ensures kinds { IfErr result IsFirstFault }
    {
        let mut header = [0; HEADER];
        let Ok(count) = fill(shelf, name, 0, &mut header) else {
            return Err(PcapFault::Read);
        };
        let form = header_of(&header[..count])?;
        let Ok(window) = Window::new(alloc, ROOM) else {
            return Err(PcapFault::NoMemory);
        };
        let start = Start {
            interface,
            lead,
            base: None,
        };
        let reach = Reach {
            base: None,
            last: lead,
            count: 0,
            at: HEADER as u64,
        };
        Ok(Capture {
            position: Position { form, start, reach },
            window,
            seen: None,
        })
    }

    /// How many records were passed.
    #[tactic(auto, unfolding(crate::specs::View::progress_of))]
    pub fn count(&self) -> u32
        ensures { result ≡ (progress_of self.now).reach.count }
    {
        self.position.reach.count
    }

    /// The time of the first record in nanoseconds, which stays the next. None where the file has no first record, or cuts it
    /// short.
    ///
    /// Included and Original come where a length of the first record is too great, Read only where a read failed, and no other fault;
    /// after a fault the capture is as before. After an Ok `peek` and `next` go on from what was read, whatever the shelf then gives. It
    /// takes no memory.
    pub fn first<S: Shelf>(&mut self, shelf: &mut S, name: &str) -> Result<Option<u64>, PcapFault>
        requires unseen { IsUnseen (progress_of self.old) }
        ensures shelf { KeepsShelf S.held S.faults shelf.old shelf.new (λ each. each ≡ name.now)
            (result ≡ Err PcapFault.Read) }
        ensures cause { IfErr result (λ fault. fault ≡ PcapFault.Read
            → Rose (S.faults shelf.old name.now) (S.faults shelf.new name.now)) }
        ensures looks { LooksFirst (S.held shelf.old name.now) (progress_of self.old) (progress_of self.new) result }
        ensures same { OnErr result (progress_of self.new ≡ progress_of self.old) }
        ensures kinds { IfErr result IsFirstRecordFault }
    {
        if self.seen.is_some() {
            return Ok(None);
        }
        let next = self.window.len();
        match self.position.part(shelf, name, &mut self.window) {
            Ok(Part::Whole(_)) => Ok(Some(time_of(self.position.form, self.window.octets()))),
            Ok(Part::End) => {
                self.seen = Some(Seen::End);
                Ok(None)
            }
            Ok(Part::Cut) => {
                self.seen = Some(Seen::Cut);
                Ok(None)
            }
            Err(fault) => {
                self.window.truncate(next);
                Err(fault)
            }
        }
    }

    /// Sets the time in nanoseconds that stands at the lead. Else it is that of the first record.
    #[tactic(auto, unfolding(crate::specs::View::progress_of))]
    pub fn based(&mut self, base: u64)
        requires unseen { IsUnseen (progress_of self.old) }
        ensures place { progress_of self.new ≡ based_at base (progress_of self.old) }
        ensures unseen { IsUnseen (progress_of self.new) }
        ensures read { HasRead (progress_of self.old) → HasRead (progress_of self.new) }
        ensures agrees { (bytes : List ℕ) → Agrees (progress_of self.old) bytes → Agrees (progress_of self.new) bytes }
    {
        self.position.start.base = Some(base);
        self.position.reach.base = Some(base);
    }

    // Sees what stands next, unless it was seen already.
    fn look<S: Shelf>(&mut self, shelf: &mut S, name: &str) -> Result<Seen, PcapFault>
        ensures shelf { KeepsShelf S.held S.faults shelf.old shelf.new (λ each. each ≡ name.now)
            (result ≡ Err PcapFault.Read) }
        ensures cause { IfErr result (λ fault. fault ≡ PcapFault.Read
            → Rose (S.faults shelf.old name.now) (S.faults shelf.new name.now)) }
        ensures position { self.new.position ≡ self.old.position }
        ensures seen { IfOk result (λ seen. self.new.seen ≡ Some seen) }
        ensures follows { IfOk result (FollowsSeen self.old.position.reach) }
        ensures looks { KeepsLook (S.held shelf.old name.now) self.old self.new result }
        ensures faults { IfErr result (Fails (S.held shelf.old name.now) (progress_of self.old)) }
    {
        if let Some(seen) = self.seen {
            return Ok(seen);
        }
        let next = self.window.len();
        match self.position.see(shelf, name, &mut self.window) {
            Ok(seen) => {
                self.seen = Some(seen);
                Ok(seen)
            }
            Err(fault) => {
                self.window.truncate(next);
                Err(fault)
            }
        }
    }

    // Sees what stands next, and passes a record.
    fn pass<S: Shelf>(&mut self, shelf: &mut S, name: &str) -> Result<Seen, PcapFault>
        ensures shelf { KeepsShelf S.held S.faults shelf.old shelf.new (λ each. each ≡ name.now)
            (result ≡ Err PcapFault.Read) }
        ensures cause { IfErr result (λ fault. fault ≡ PcapFault.Read
            → Rose (S.faults shelf.old name.now) (S.faults shelf.new name.now)) }
        ensures follows { IfOk result (FollowsSeen self.old.position.reach) }
        ensures passed { IfOk result (IsPassed self.new.window) }
        ensures stays { IfOk result (λ seen. seen ≡ Seen.Cut → self.new.position.reach.at ≡ self.old.position.reach.at) }
        ensures passes { KeepsStep (S.held shelf.old name.now) self.old self.new result }
        ensures faults { IfErr result (Fails (S.held shelf.old name.now) (progress_of self.old)) }
    {
        let seen = self.look(shelf, name)?;
        match seen {
            Seen::Whole(record) => {
                self.position.reach = record.after;
                self.window.pass(RECORD_HEADER + record.included as usize);
                self.seen = None;
                Ok(seen)
            }
            _ => Ok(seen),
        }
    }

    /// The moment of the next record's frame, which stays the next. None where the file ends here, or cuts the
    /// next record short.
    ///
    /// The faults are those of `next`, and after a fault the capture is as before. It takes no memory.
    pub fn peek<S: Shelf>(&mut self, shelf: &mut S, name: &str) -> Result<Option<u32>, PcapFault>
        ensures shelf { KeepsShelf S.held S.faults shelf.old shelf.new (λ each. each ≡ name.now)
            (result ≡ Err PcapFault.Read) }
        ensures cause { IfErr result (λ fault. fault ≡ PcapFault.Read
            → Rose (S.faults shelf.old name.now) (S.faults shelf.new name.now)) }
        ensures looks { IfOk result
            (LooksAt (S.held shelf.old name.now) (progress_of self.old) (progress_of self.new)) }
        ensures same { OnErr result (progress_of self.new ≡ progress_of self.old) }
        ensures faults { IfErr result (Fails (S.held shelf.old name.now) (progress_of self.old)) }
    {
        match self.look(shelf, name) {
            Ok(Seen::Whole(record)) => Ok(Some(record.after.last)),
            Ok(_) => Ok(None),
            Err(fault) => Err(fault),
        }
    }

    /// The next record, which is passed: `peek` and `next` go on behind it. Its octets are lent from the capture.
    ///
    /// Once the records have stopped, each further call answers the same. A record that `peek` saw is kept, and isn't
    /// read again. Included, Original, Late and TooMany come where the next record has that fault, Read only
    /// where a read failed, and after a fault the capture is as before. It takes no memory.
    pub fn next<S: Shelf>(&mut self, shelf: &mut S, name: &str) -> Result<Step<'_>, PcapFault>
        ensures shelf { KeepsShelf S.held S.faults shelf.old shelf.new (λ each. each ≡ name.now)
            (result ≡ Err PcapFault.Read) }
        ensures cause { IfErr result (λ fault. fault ≡ PcapFault.Read
            → Rose (S.faults shelf.old name.now) (S.faults shelf.new name.now)) }
        ensures faults { IfErr result (Fails (S.held shelf.old name.now) (progress_of self.old)) }
        ensures* after { sem 𝓛 (follows_so the_row the_row self.entry.ghost_name none (λ _ _. ⊤)
            (λ after. Steps (S.held shelf.old name.now) (progress_of self.old) (progress_of after) result)) }
    {
        let interface = self.position.start.interface;
        match self.pass(shelf, name) {
            Ok(Seen::Whole(record)) => Ok(Step::Next(Frame {
                bytes: self.window.passed(record.included as usize),
                original: record.original,
                moment: record.after.last,
                number: record.after.count,
                interface,
            })),
            Ok(Seen::End) => Ok(Step::End),
            Ok(Seen::Cut) => Ok(Step::Cut(self.position.reach.at)),
            Err(fault) => Err(fault),
        }
    }
}
