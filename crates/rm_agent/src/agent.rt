// The agent.
ghost use Rattle.std.specs.Prelude.{◌≡◌, ℕ, ◌+◌, ◌≤◌, ◌<◌, ◌^◌, [], ◌∷◌, true, length, max, Option, Some, IfOk, IfSome};
ghost use Rattle.std.specs.Option.{option_map};
ghost use Rattle.rm_agent.specs.Dues.{moment_in};
ghost use Rattle.rm_agent.specs.Groups.{AreStocked, clock_of, frames_of};

use crate::answer::{Answer, Reason};
use crate::groups::{Groups, all_groups, cell, end_by, next_due, pass};
use crate::notification::notification;
use crate::sampling::take;
use rm_group::{Due, MOST_FRAMES, Passing, SAMPLES};
use rm_pcap::Frame;
use rm_pdu::{Places, read_message};
use rm_proto::facts;
use rm_reply::{MOST_REPLY, Request, granted_or_denied, respond};
use rm_settings::Settings;
use rm_val::{NoMemory, Oid, Value};
use std::alloc::Global;

// How many request-ids notifications have: they are numbers of 31 bits.
const REQUEST_IDS: u32 = 0x8000_0000;

/// The agent: what it was set to, and the groups of objects that it answers for. What falls due is told by `next_due` and handled by `due`: a
/// report of hosts ends, of which no act tells, or the sample of an alarm is taken.
#[derive(Drop)]
pub struct Agent {
    settings: Settings,
    groups: Box<Groups>,
    // The last moment that it was given, in milliseconds.
    last: u32,
    // How many frames it was given.
    frames: u32,
    // How many notifications there were, modulo 2^31.
    notifications: u32,
    ghost later: { clock_of groups.value ≤ last },
    ghost few: { frames_of groups.value ≤ frames },
    ghost stocked: { AreStocked groups.value },
    ghost notifications_fit: { notifications < 2 ^ 31 },
}

impl Agent {
    ghost use Rattle.rm_acts.specs.Alarms.{due_of, IsNextDue};
    ghost use Rattle.rm_alarm.specs.Group.{due_in};
    ghost use Rattle.rm_group.specs.Due.{HaveEnded};
    ghost use Rattle.rm_group.specs.declared.due.Due.{Due as Falling};
    ghost use Rattle.rm_model.specs.Journal.{Journal, passes};
    ghost use Rattle.rm_pcap.specs.Progress.{frame_of};
    ghost use Rattle.rm_pdu.specs.Parse.{Parse, IsParse};
    ghost use Rattle.rm_val.specs.Val.{val_of};
    ghost use Rattle.rm_agent.specs.Answers.{reason_for, reason_in, IsReplied, IsStorageFirst, IsShort};
    ghost use Rattle.rm_agent.specs.Dues.{IsNext};
    ghost use Rattle.rm_agent.specs.Groups.{cells};
    ghost use Rattle.rm_agent.specs.Members.{alarms_of};
    ghost use Rattle.rm_agent.specs.Orderly.{NoneIsDue};
    ghost use Rattle.rm_agent.specs.Agent.{settings_of, last_given, frames_given, dues_of, dues_left_of, IsNextMoment, NothingIsDue, HasSampled, HasHandled, Stands};

    /// The agent before the first frame. It takes the storage of one row of each table whose rows take storage while they are
    /// valid. NoMemory where there is none.
    pub fn new(alloc: Global, settings: Settings) -> Result<Agent, NoMemory>
        ensures stands { IfOk result (λ agent. Stands agent []) }
        ensures settings { IfOk result (λ agent. settings_of agent ≡ settings) }
        ensures last { IfOk result (λ agent. last_given agent ≡ 0) }
        ensures frames { IfOk result (λ agent. frames_given agent ≡ 0) }
    {
        Ok(Agent {
            groups: all_groups(alloc, &settings)?,
            settings,
            last: 0,
            frames: 0,
            notifications: 0,
        })
    }

    /// Counts a frame. Its moment isn't below the last one given, it had at most 262,144 octets and was captured with no more
    /// than it had, and fewer than `MOST_FRAMES` frames were given before. What is due up to its moment comes first (`due`): of what a frame
    /// does before samples that are due nothing is said, and reports end that should have.
    pub fn frame(&mut self, frame: &Frame<'_>)
        requires later { last_given self.old ≤ frame.now.moment }
        requires captured { length frame.now.bytes.now ≤ frame.now.original }
        requires original { frame.now.original ≤ 262144 }
        requires room { frames_given self.old < MOST_FRAMES }
        ensures stands { (journal : Journal) → Stands self.old journal → NoneIsDue frame.now.moment journal
            → Stands self.new (passes (frame_of frame.now) ∷ journal) }
        ensures settings { settings_of self.new ≡ settings_of self.old }
        ensures last { last_given self.new ≡ frame.now.moment }
        ensures frames { frames_given self.new ≡ frames_given self.old + 1 }
    {
        let mut passing = Passing {
            facts: facts(frame.bytes, frame.original, self.settings.keep_short),
            octets: frame.bytes,
            number: frame.number,
            moment: frame.moment,
        };
        passing.facts.interface = frame.interface;
        pass(&mut self.groups, &passing);
        self.last = frame.moment;
        self.frames += 1;
    }

    /// Answers a datagram at a moment in milliseconds, which isn't below the last one given, and becomes it. A reply comes to
    /// the front of `out`. Drop says why there is none. Memory is asked for only by a SetRequest with which nothing is wrong and
    /// which makes a row valid that takes storage. Where there is none, whichever row it was for, the SetRequest is answered
    /// resourceUnavailable, and each later datagram as if it hadn't come. What is due up to the moment comes first (`due`): of what the
    /// agent stands for after an answer before samples that are due nothing is said, and reports end that should have.
    pub fn answer(
        &mut self,
        alloc: Global,
        datagram: &[u8],
        now: u32,
        out: &mut [u8; MOST_REPLY],
    ) -> Answer
        requires { last_given self.old ≤ now }
        ensures reason { (v : Parse) × IsParse true datagram.now v × (reason_in result ≡ reason_for (settings_of self.old) v) }
        ensures reply { (journal : Journal) → Stands self.old journal → (after : Journal) × (NoneIsDue now journal → Stands self.new after)
            × IsReplied (settings_of self.old) journal now datagram.now result out.new after }
        ensures storage { (journal : Journal) → Stands self.old journal → NoneIsDue now journal
            → IsStorageFirst (settings_of self.old) journal now datagram.now result out.new (Stands self.new) }
        ensures short { IsShort result }
        ensures settings { settings_of self.new ≡ settings_of self.old }
        ensures last { last_given self.new ≡ now }
        ensures frames { frames_given self.new ≡ frames_given self.old }
    {
        self.last = now;
        let mut bindings = Places::new();
        let message = match read_message(datagram, &mut bindings) {
            Ok(message) => message,
            Err(fault) => return Answer::Drop(fault.into()),
        };
        if !self.settings.is_known(message.community) {
            return Answer::Drop(Reason::Community);
        }
        let may_write = self.settings.may_write(message.community);
        let request = Request {
            octets: datagram,
            message,
            bindings,
        };
        end_by(&mut self.groups, now);
        granted_or_denied::<Groups>();
        let draft = respond(&mut *self.groups, alloc, &request, may_write, now);
        Answer::Reply(draft.finish(out))
    }

    /// The value of the variable with that name at a moment in milliseconds, which isn't below the last one given, and up to which nothing
    /// is due any more (`due`). None where there is no such variable.
    pub fn cell(&self, name: &Oid, now: u32) -> Option<Value<'_>>
        requires later { last_given self.now ≤ now }
        requires nothing { NothingIsDue now self.now }
        ensures { (journal : Journal) → Stands self.now journal → option_map val_of result ≡ cells (settings_of self.now) journal now name.now }
    {
        cell(&self.groups, name, now)
    }

    /// The moment of what falls due next, in milliseconds: of the end of a report of hosts, or of the sample of an alarm. None where neither
    /// ever does.
    pub fn next_due(&self) -> Option<u64>
        ensures next { IsNextMoment (dues_of self.now) result }
        ensures journal { (journal : Journal) → Stands self.now journal
            → (next : Option Falling) × IsNext journal (last_given self.now) next × (result ≡ moment_in next) }
        ensures none { (journal : Journal) (to : ℕ) → Stands self.now journal → IfSome result (λ moment. to < moment)
            → NoneIsDue to journal }
        ensures nothing { (to : ℕ) → IfSome result (λ moment. to < moment) → NothingIsDue to self.now }
    {
        moment_of(next_due(&self.groups))
    }

    /// Handles what falls due next, which is due at this moment, in milliseconds. At one moment the reports of hosts end that are due then,
    /// and of that nothing is sent. Then the samples of alarms are taken, one by one, of several that are due the one of the lowest alarm,
    /// and its event fires. Where the event sends a trap (RFC 1757, section 5), the notification comes to the front of `note`, and the result
    /// is how many octets it has. None where no notification is sent. It takes no memory.
    pub fn due(&mut self, moment: u32, note: &mut [u8; MOST_REPLY]) -> Option<usize>
        requires { IsNextMoment (dues_of self.old) (Some moment) }
        ensures handled { (journal : Journal) → Stands self.old journal
            → HasHandled (settings_of self.old) journal (last_given self.old) moment self.new result note.new }
        ensures ended { HaveEnded (dues_of self.new) moment }
        ensures short { IfSome result (λ count. count ≤ MOST_REPLY) }
        ensures settings { settings_of self.new ≡ settings_of self.old }
        ensures last { last_given self.new ≡ max (last_given self.old) moment }
        ensures frames { frames_given self.new ≡ frames_given self.old }
        ensures fewer { (latest : ℕ) → moment ≤ latest → dues_left_of self.new latest < dues_left_of self.old latest }
    {
        let next = next_due(&self.groups).unwrap();
        if next.kind == SAMPLES {
            self.sample(next.number, moment, note)
        } else {
            self.end_reports(moment);
            None
        }
    }

    // Takes the sample of an alarm that is due at a moment, in milliseconds.
    fn sample(&mut self, alarm: u32, moment: u32, note: &mut [u8; MOST_REPLY]) -> Option<usize>
        requires { due_in (alarms_of self.old.groups.value) alarm ≡ Some moment }
        ensures sampled { (journal : Journal) → Stands self.old journal → IsNextDue (due_of journal) (Some (moment, alarm))
            → HasSampled (settings_of self.old) journal moment self.new result note.new }
        ensures ended { HaveEnded (dues_of self.new) moment }
        ensures short { IfSome result (λ count. count ≤ MOST_REPLY) }
        ensures settings { settings_of self.new ≡ settings_of self.old }
        ensures last { last_given self.new ≡ max (last_given self.old) moment }
        ensures frames { frames_given self.new ≡ frames_given self.old }
        ensures fewer { (latest : ℕ) → moment ≤ latest → dues_left_of self.new latest < dues_left_of self.old latest }
    {
        let taken = take(&mut self.groups, alarm, moment);
        self.last = self.last.max(moment);
        let id = (self.notifications + 1) % REQUEST_IDS;
        let draft = notification(&self.groups, &taken, alarm, moment, id)?;
        self.notifications = id;
        Some(draft.finish(note))
    }

    // Ends the reports of hosts that are due up to a moment, in milliseconds.
    fn end_reports(&mut self, moment: u32)
        ensures stands { (journal : Journal) → Stands self.old journal → Stands self.new journal }
        ensures ended { HaveEnded (dues_of self.new) moment }
        ensures settings { settings_of self.new ≡ settings_of self.old }
        ensures last { last_given self.new ≡ max (last_given self.old) moment }
        ensures frames { frames_given self.new ≡ frames_given self.old }
        ensures fewer { (due : Falling) (latest : ℕ) → dues_of self.old due → due.kind < SAMPLES → due.moment ≤ moment → due.moment ≤ latest
            → dues_left_of self.new latest < dues_left_of self.old latest }
    {
        end_by(&mut self.groups, moment);
        self.last = self.last.max(moment);
    }
}

// The moment of what falls due next, if there is something.
fn moment_of(next: Option<Due>) -> Option<u64>
    ensures { result ≡ moment_in next }
{
    match next {
        Some(due) => Some(due.moment),
        None => None,
    }
}
