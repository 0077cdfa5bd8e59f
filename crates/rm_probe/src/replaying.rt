// The text of a run: captures and a request file are read again, which were judged before, and the datagrams are answered.
ghost use Rattle.std.specs.Prelude.{◌≡◌, ◌⊎◌, ◌≤◌, ◌<◌, ◌+◌, ◌-◌, ◌^◌, ◌++◌, ℕ, List, None, Ok, Err, OnOk, IfErr, IfOk, [], ◌∷◌, length, map};
ghost use Rattle.rm_edge.specs.Outside.{Rose, File};
ghost use Rattle.rm_edge.specs.Shelves.{KeepsShelf};
ghost use Rattle.rm_model.specs.Journal.{Frame, Journal};
ghost use Rattle.rm_pcap.specs.Records.{Stop};
ghost use Rattle.rm_captures.specs.Left.{AreLeft, LooksAll, passed_of};
ghost use Rattle.rm_captures.specs.Reading.{AreHeld, IsOneOf, OneRose, texts};
ghost use Rattle.rm_captures.specs.Rounds.{AreCaptures};
ghost use Rattle.rm_requests.specs.Lines.{TimedDatagram, AreRequests};
ghost use Rattle.rm_requests.specs.Reading.{beginning, reached_of};
ghost use Rattle.rm_captures.specs.Merge.{frames_after};
ghost use Rattle.rm_probe.specs.Notes.{Note};
ghost use Rattle.rm_probe.specs.Said.{Notified, Responded, Response, Said, SaysMore};
ghost use Rattle.rm_probe.specs.Output.{failed_by};
ghost use Rattle.rm_probe.specs.Probe.{settings_of, last_given, frames_given, IsFresh, Stands};
ghost use Rattle.rm_probe.specs.Steps.{Advanced, Answers, AreNotCaptures, AreNotLeft, FailsBy, FindsAnother, FindsCutBehind, FindsFrame, HasPassed, IsForeign, IsLastLine, IsLastSaid, IsNextSaid, IsNotRequests, IsOfCapture, IsOfOne, IsQuiet, IsResponse, IsTold, Keeps, SaysFrom, SaysNext, SaysRun, TellsNoMessage, Writes, ends_by, timed, told_by};
ghost use Rattle.rm_probe.specs.Ends.{IsSilent};
ghost use Rattle.rm_probe.specs.declared.status.Status.TheVariants.{ReadFault, WriteFault, NoMemory};

use crate::laws::something_said;
use crate::notes::{Notes, Outlet};
use crate::output::{Output, OutputFault};
use crate::probe::Probe;
use crate::status::Status;
use rm_agent::MOST_REPLY;
use rm_captures::{Coming, FIRST, begin, is_cut, next_of, pass_next, passed};
use rm_edge::{Shelf, Sink};
use rm_pcap::{Capture, Step};
use rm_requests::Requests;
use std::alloc::Global;

/// A datagram of a request file, the number of its line from 1, and the moment in milliseconds at which it comes.
#[derive(Clone, Copy)]
pub struct NumberedDatagram<'a> {
    pub number: u64,
    pub moment: u32,
    pub datagram: &'a [u8],
}

/// Captures, one for each interface, whose frames pass by a probe.
#[derive(Drop)]
pub(crate) struct Replaying {
    pub(crate) captures: Vec<Capture>,
    pub(crate) probe: Probe,
}

impl Replaying {
    // Which frame comes next. It is looked at, and stays the next one. None where no frame is left. It is inlined, since each frame that is read
    // passes through here.
    #[inline(always)]
    fn next<F: Shelf>(&mut self, shelf: &mut F, names: &[&str]) -> Result<Option<Coming>, Status>
        requires few { length names.now ≤ 4 }
        ensures shelf { KeepsShelf F.held F.faults shelf.old shelf.new (IsOneOf (texts names.now)) (result ≡ Err ReadFault) }
        ensures reads { result ≡ Err ReadFault → OneRose (F.faults shelf.old) (F.faults shelf.new) (texts names.now) }
        ensures kinds { IfErr result IsOfCapture }
        ensures probe { self.new.probe ≡ self.old.probe }
        ensures looks { IfOk result (LooksAll (F.held shelf.old) 1 (texts names.now) self.old.captures.items self.new.captures.items) }
        ensures finds { (files : List (List ℕ)) (frames : List Frame) (stop : Stop) → AreHeld (F.held shelf.old) (texts names.now) files
            → AreLeft 1 self.old.captures.items files frames stop → FindsFrame frames result × AreLeft 1 self.new.captures.items files frames stop }
    {
        match next_of(self.captures.as_mut_slice(), shelf, names, FIRST) {
            Ok(next) => Ok(next),
            Err(found) => Err(Status::from(found)),
        }
    }

    // Counts the frame that was told to come next, after the samples that are due. What was looked at is lent without a read, and so no fault
    // comes.
    fn count_next<F: Shelf, N: Notes>(
        &mut self,
        shelf: &mut F,
        names: &[&str],
        coming: Coming,
        notes: &mut N,
    )
        requires few { length names.now ≤ 4 }
        requires told { IsTold (texts names.now) self.old.captures.items coming }
        requires keeps { Keeps (length names.now) (last_given self.old.probe) self.old.probe self.old.captures.items }
        ensures shelf { KeepsShelf F.held F.faults shelf.old shelf.new (IsOneOf (texts names.now)) ⊥ }
        ensures passes { (more : List Note) × SaysMore N.since notes.old notes.new (map Notified more)
            × HasPassed (F.held shelf.old) (texts names.now) self.old.captures.items self.new.captures.items self.old.probe self.new.probe coming more }
        ensures settings { settings_of self.new.probe ≡ settings_of self.old.probe }
        ensures keeps { Keeps (length names.now) (last_given self.new.probe) self.new.probe self.new.captures.items }
        ensures last { last_given self.new.probe ≡ coming.moment }
        ensures count { passed_of self.new.captures.items ≡ passed_of self.old.captures.items + 1 }
    {
        match pass_next(&mut self.captures, shelf, names, coming.interface) {
            Ok(Step::Next(frame)) => self.probe.frame(&frame, notes),
            Ok(Step::End) => (),
            Ok(Step::Cut(_)) => (),
            Err(_) => (),
        }
    }

    // Counts the frames up to a moment in milliseconds, which isn't below the last one that the probe was given, each after the
    // samples that are due. Fails where a read fails, or by the fault of the next record of a capture.
    fn advance<F: Shelf, N: Notes>(
        &mut self,
        shelf: &mut F,
        names: &[&str],
        moment: u32,
        notes: &mut N,
    ) -> Result<(), Status>
        requires few { length names.now ≤ 4 }
        requires later { last_given self.old.probe ≤ moment }
        requires keeps { Keeps (length names.now) (last_given self.old.probe) self.old.probe self.old.captures.items }
        ensures shelf { KeepsShelf F.held F.faults shelf.old shelf.new (IsOneOf (texts names.now)) (result ≡ Err ReadFault) }
        ensures reads { result ≡ Err ReadFault → OneRose (F.faults shelf.old) (F.faults shelf.new) (texts names.now) }
        ensures kinds { IfErr result IsOfCapture }
        ensures says { (passed : List Note) × SaysMore N.since notes.old notes.new (map Notified passed)
            × SaysFrom (F.held shelf.old) (texts names.now) self.old.captures.items self.old.probe moment (λ files frames stop journal said.
            Advanced (settings_of self.old.probe) moment files self.new.captures.items self.new.probe (passed_of self.old.captures.items)
            frames stop journal passed) (map Notified passed) result }
        ensures settings { settings_of self.new.probe ≡ settings_of self.old.probe }
        ensures keeps { OnOk result (Keeps (length names.now) moment self.new.probe self.new.captures.items) }
        ensures all { moment ≡ 4294967295 → OnOk result ((files : List (List ℕ)) (frames : List Frame) (stop : Stop) (journal : Journal)
            → AreHeld (F.held shelf.old) (texts names.now) files → AreLeft 1 self.old.captures.items files frames stop → Stands self.old.probe journal
            → frames_after moment frames ≡ []) }
    {
        loop {
            let Some(coming) = self.next(shelf, names)? else {
                return Ok(());
            };
            if coming.moment > moment {
                return Ok(());
            }
            self.count_next(shelf, names, coming, notes);
        }
    }

    /// Hands the probe what happens up to a datagram: the frames up to its moment, and then the datagram itself, which is answered.
    pub fn handle_to<F: Shelf, O: Outlet>(
        &mut self,
        alloc: Global,
        shelf: &mut F,
        names: &[&str],
        request: NumberedDatagram<'_>,
        out: &mut O,
    ) -> Result<(), Status>
        requires few { length names.now ≤ 4 }
        requires later { last_given self.old.probe ≤ request.moment }
        requires keeps { Keeps (length names.now) (last_given self.old.probe) self.old.probe self.old.captures.items }
        requires output { O.failed out.old ≡ None }
        ensures shelf { KeepsShelf F.held F.faults shelf.old shelf.new (IsOneOf (texts names.now)) (result ≡ Err ReadFault) }
        ensures says { (said : List Said) × SaysMore O.since out.old out.new said
            × SaysFrom (F.held shelf.old) (texts names.now) self.old.captures.items self.old.probe request.entry.moment
            (λ files. IsNextSaid files self.old.captures.items self.new.captures.items (settings_of self.old.probe) self.new.probe
            request.entry.number (timed request.entry)) said result
            × IsOfOne request.entry.number said × OnOk result (IsResponse request.entry.number said) }
        ensures failed { FailsBy (O.failed out.new) result }
        ensures settings { settings_of self.new.probe ≡ settings_of self.old.probe }
        ensures keeps { OnOk result (Keeps (length names.now) (last_given self.new.probe) self.new.probe self.new.captures.items) }
        ensures last { OnOk result (last_given self.new.probe ≡ request.entry.moment) }
        ensures reads { result ≡ Err ReadFault → OneRose (F.faults shelf.old) (F.faults shelf.new) (texts names.now) }
        ensures loud { IfErr result (λ status. IsForeign status → ⊥) }
    {
        self.advance(shelf, names, request.moment, out)?;
        told(answer(alloc, &mut self.probe, request, out))
    }

    // Whether a capture is cut short, where no frame is left.
    fn is_cut<F: Shelf>(&mut self, shelf: &mut F, names: &[&str]) -> Result<bool, Status>
        requires few { length names.now ≤ 4 }
        ensures shelf { KeepsShelf F.held F.faults shelf.old shelf.new (IsOneOf (texts names.now)) (result ≡ Err ReadFault) }
        ensures reads { result ≡ Err ReadFault → OneRose (F.faults shelf.old) (F.faults shelf.new) (texts names.now) }
        ensures kinds { IfErr result IsOfCapture }
        ensures ends { (files : List (List ℕ)) (frames : List Frame) (stop : Stop) → AreHeld (F.held shelf.old) (texts names.now) files
            → AreLeft 1 self.old.captures.items files frames stop → FindsCutBehind frames stop result }
    {
        let next = self.next(shelf, names)?;
        if next.is_some() {
            return Ok(false);
        }
        match is_cut(self.captures.as_mut_slice(), shelf, names, FIRST) {
            Ok(cut) => Ok(cut),
            Err(found) => Err(Status::from(found)),
        }
    }

    /// Writes the last line, after so many datagrams. It says `cut` where no frame is left and a capture is cut short.
    pub fn put_last<F: Shelf, O: Outlet>(
        &mut self,
        shelf: &mut F,
        names: &[&str],
        requests: u64,
        out: &mut O,
    ) -> Result<(), Status>
        requires few { length names.now ≤ 4 }
        requires captured { length self.old.captures.items ≤ 4 }
        ensures shelf { KeepsShelf F.held F.faults shelf.old shelf.new (IsOneOf (texts names.now)) (result ≡ Err ReadFault) }
        ensures says { (said : List Said) × SaysMore O.since out.old out.new said
            × ((files : List (List ℕ)) (frames : List Frame) (stop : Stop) → AreHeld (F.held shelf.old) (texts names.now) files
            → AreLeft 1 self.old.captures.items files frames stop
            → SaysNext (IsLastLine (passed_of self.old.captures.items) requests frames stop) (λ notes. notes ≡ []) said result)
            × TellsNoMessage said }
        ensures failed { FailsBy (O.failed out.new) result }
        ensures reads { result ≡ Err ReadFault → OneRose (F.faults shelf.old) (F.faults shelf.new) (texts names.now) }
        ensures loud { IfErr result (λ status. IsForeign status → ⊥) }
    {
        let frames = passed(&self.captures);
        let is_cut = self.is_cut(shelf, names)?;
        told(out.last(is_cut, frames, requests))
    }

    /// Counts the frames that are left, and writes the last line, after the datagrams of a request file.
    fn write_last<F: Shelf, O: Outlet>(
        &mut self,
        shelf: &mut F,
        names: &[&str],
        requests: &Requests,
        out: &mut O,
    ) -> Result<(), Status>
        requires few { length names.now ≤ 4 }
        requires moment { last_given self.old.probe < 2 ^ 32 }
        requires keeps { Keeps (length names.now) (last_given self.old.probe) self.old.probe self.old.captures.items }
        requires output { O.failed out.old ≡ None }
        ensures shelf { KeepsShelf F.held F.faults shelf.old shelf.new (IsOneOf (texts names.now)) (result ≡ Err ReadFault) }
        ensures says { (said : List Said) × SaysMore O.since out.old out.new said
            × SaysFrom (F.held shelf.old) (texts names.now) self.old.captures.items self.old.probe 4294967295
            (λ files. IsLastSaid (settings_of self.old.probe) (passed_of self.old.captures.items) ((reached_of requests.now).number - 1)) said result }
        ensures failed { FailsBy (O.failed out.new) result }
        ensures reads { result ≡ Err ReadFault → OneRose (F.faults shelf.old) (F.faults shelf.new) (texts names.now) }
        ensures loud { IfErr result (λ status. IsForeign status → ⊥) }
    {
        self.advance(shelf, names, u32::MAX, out)?;
        self.put_last(shelf, names, requests.passed(), out)
    }

    /// Writes the lines of the datagrams of a request file, which is read from its first line on, and the last one.
    fn write_lines<F: Shelf, O: Outlet>(
        &mut self,
        alloc: Global,
        shelf: &mut F,
        names: &[&str],
        requests: &str,
        reader: &mut Requests,
        out: &mut O,
    ) -> Result<(), Status>
        requires few { length names.now ≤ 4 }
        requires reached { reached_of reader.old ≡ beginning }
        requires first { IsFresh self.old.probe }
        requires begun { Keeps (length names.now) 0 self.old.probe self.old.captures.items }
        requires none { passed_of self.old.captures.items ≡ 0 }
        requires output { O.failed out.old ≡ None }
        ensures says { (said : List Said) × O.since out.old out.new said
            × ((files : List (List ℕ)) (lines : List ℕ) (frames : List Frame) (stop : Stop) (asked : List TimedDatagram)
            → AreHeld (F.held shelf.old) (texts names.now) files → F.held shelf.old requests.now ≡ File lines
            → AreLeft 1 self.old.captures.items files frames stop → AreRequests lines asked → SaysRun (settings_of self.old.probe) frames stop asked said result) }
        ensures failed { FailsBy (O.failed out.new) result }
        ensures finds { FindsAnother (AreNotLeft (F.held shelf.old) (texts names.now) self.old.captures.items) (IsNotRequests (F.held shelf.old requests.now)) (ends_by result) }
        ensures reads { result ≡ Err ReadFault → OneRose (F.faults shelf.old) (F.faults shelf.new) (texts names.now)
            ⊎ Rose (F.faults shelf.old requests.now) (F.faults shelf.new requests.now) }
        ensures shelf { KeepsShelf F.held F.faults shelf.old shelf.new (λ each. IsOneOf (texts names.now) each ⊎ (each ≡ requests.now)) (result ≡ Err ReadFault) }
        ensures loud { IsQuiet (ends_by result) → ⊥ }
    {
        something_said();
        loop {
            let asked = match reader.next(shelf, requests) {
                Ok(Some(asked)) => asked,
                Ok(None) => return self.write_last(shelf, names, reader, out),
                Err(fault) => return Err(Status::of_requests(fault)),
            };
            let request = NumberedDatagram {
                number: asked.number,
                moment: asked.moment,
                datagram: reader.datagram(),
            };
            match self.handle_to(alloc, shelf, names, request, out) {
                Ok(()) => (),
                Err(status) => return Err(status),
            }
        }
    }
}

// Takes the samples that are due up to the moment of a datagram, and answers it.
fn answer<O: Outlet>(
    alloc: Global,
    probe: &mut Probe,
    request: NumberedDatagram<'_>,
    out: &mut O,
) -> Result<(), OutputFault>
    requires later { last_given probe.old ≤ request.moment }
    ensures answers { (more : List Note) × (response : Response)
        × SaysMore O.since out.old out.new (map Notified more ++ Responded request.entry.number request.entry.moment response ∷ [])
        × Answers probe.old probe.new (timed request.entry) more response }
    ensures failed { O.failed out.new ≡ failed_by result }
    ensures settings { settings_of probe.new ≡ settings_of probe.old }
    ensures last { last_given probe.new ≡ request.entry.moment }
    ensures frames { frames_given probe.new ≡ frames_given probe.old }
{
    let mut reply = [0; MOST_REPLY];
    let answer = probe.datagram(alloc, request.datagram, request.moment, &mut reply, out);
    out.answer(request, answer, &reply)
}

/// Reads all files again, the captures with their earliest first record at the moment `lead`, and writes the text of them.
pub fn write_run<F: Shelf, K: Sink>(
    alloc: Global,
    shelf: &mut F,
    names: &[&str],
    lead: u32,
    probe: Probe,
    requests: &str,
    reader: &mut Requests,
    out: &mut K,
) -> Status
    requires few { length names.now ≤ 4 }
    requires reached { reached_of reader.old ≡ beginning }
    requires first { IsFresh probe }
    ensures text { (files : List (List ℕ)) (lines : List ℕ) (frames : List Frame) (stop : Stop) (asked : List TimedDatagram)
        → AreHeld (F.held shelf.old) (texts names.now) files → F.held shelf.old requests.now ≡ File lines
        → AreCaptures lead files frames stop → AreRequests lines asked
        → Writes (settings_of probe) frames stop asked (K.content out.old) (K.content out.new) result }
    ensures finds { FindsAnother (AreNotCaptures lead (F.held shelf.old) (texts names.now)) (IsNotRequests (F.held shelf.old requests.now)) result }
    ensures reads { result ≡ ReadFault → OneRose (F.faults shelf.old) (F.faults shelf.new) (texts names.now)
        ⊎ Rose (F.faults shelf.old requests.now) (F.faults shelf.new requests.now) }
    ensures shelf { KeepsShelf F.held F.faults shelf.old shelf.new (λ each. IsOneOf (texts names.now) each ⊎ (each ≡ requests.now)) (result ≡ ReadFault) }
    ensures writes { result ≡ WriteFault → Rose (K.faults out.old) (K.faults out.new) }
    ensures silent { IsSilent result → K.content out.new ≡ K.content out.old }
    ensures later { K.faults out.old ≤ K.faults out.new }
    ensures kinds { IsSilent result → result ≡ NoMemory }
{
    something_said();
    match begin(alloc, shelf, names, lead) {
        Ok(captures) => {
            let mut replaying = Replaying { captures, probe };
            let mut output = Output::new(out);
            let run = replaying.write_lines(alloc, shelf, names, requests, reader, &mut output);
            ended(run)
        }
        Err(found) => Status::from(found),
    }
}

// How an output that takes nothing more ends the run.
fn told(output: Result<(), OutputFault>) -> Result<(), Status>
    ensures { result ≡ told_by output }
{
    match output {
        Ok(()) => Ok(()),
        Err(OutputFault::Put) => Err(Status::WriteFault),
        Err(OutputFault::Send) => Err(Status::LinkFault),
    }
}

// How a run ends by its result.
pub(crate) fn ended(run: Result<(), Status>) -> Status
    ensures { result ≡ ends_by run }
{
    match run {
        Ok(()) => Status::Done,
        Err(status) => status,
    }
}
