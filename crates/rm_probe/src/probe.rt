// The probe.
ghost use Rattle.std.specs.Prelude.{◌≡◌, ℕ, ◌+◌, ◌≤◌, ◌<◌, max, List, ◌∷◌, length, Some, IfOk, IfSome, IfNone, map};
ghost use Rattle.std.specs.Option.{option_map};
ghost use Rattle.rm_val.specs.Val.{val_of};
ghost use Rattle.rm_model.specs.Journal.{Journal};
ghost use Rattle.rm_agent.specs.Agent.{dues_of, dues_left_of, IsNextMoment, NothingIsDue};
ghost use Rattle.rm_agent.specs.Answers.{IsShort, IsStorageFirst};
ghost use Rattle.rm_agent.specs.Groups.{cells};
ghost use Rattle.rm_agent.specs.Orderly.{NoneIsDue};
ghost use Rattle.rm_probe.specs.Notes.{Note};
ghost use Rattle.rm_probe.specs.Said.{Notified, SaysMore};

use crate::notes::Notes;
use rm_agent::{Agent, Answer, MOST_FRAMES, MOST_REPLY, advance_is_orderly};
use rm_pcap::Frame;
use rm_settings::Settings;
use rm_val::{NoMemory, Oid, Value};
use std::alloc::Global;

/// The probe: frames and datagrams come to it in the order of their moments.
#[derive(Drop)]
pub struct Probe {
    agent: Agent,
}

impl Probe {
    ghost use Rattle.rm_model.specs.Journal.{passes};
    ghost use Rattle.rm_pcap.specs.Progress.{frame_of};
    ghost use Rattle.rm_probe.specs.Advance.{IsAdvanced};
    ghost use Rattle.rm_probe.specs.Said.{response_of};
    ghost use Rattle.rm_probe.specs.Text.{IsAnswered};
    ghost use Rattle.rm_probe.specs.Probe.{settings_of, last_given, frames_given, HasHandledBy, IsFresh, IsHandled, Stands};

    /// The probe before the first frame. NoMemory where there is none for the storage that tables take at first.
    pub fn new(alloc: Global, settings: Settings) -> Result<Probe, NoMemory>
        ensures fresh { IfOk result IsFresh }
        ensures settings { IfOk result (λ probe. settings_of probe ≡ settings) }
    {
        Ok(Probe {
            agent: Agent::new(alloc, settings)?,
        })
    }

    /// Handles all that is due up to a moment, in milliseconds, which isn't below the last one given. Reports of hosts end, and samples of
    /// alarms are taken. They come in order of their moments, at one moment the ends of reports first, and then the samples in order of the
    /// alarms, and each sample sees those before it. One that crosses a threshold has its event fire, and where the event asks for a trap,
    /// the notification goes to `notes`.
    pub fn advance<N: Notes>(&mut self, to: u32, notes: &mut N)
        requires { last_given self.old ≤ to }
        ensures advanced { (more : List Note) × SaysMore N.since notes.old notes.new (map Notified more)
            × ((journal : Journal) → Stands self.old journal → (after : Journal) × IsAdvanced (settings_of self.old) to journal more after
            × Stands self.new after) }
        ensures nothing { HasHandledBy to self.new }
        ensures settings { settings_of self.new ≡ settings_of self.old }
        ensures last { last_given self.new ≤ to }
        ensures frames { frames_given self.new ≡ frames_given self.old }
    {
        while let Some(moment) = self.next_by(to) {
            self.handle(moment, notes);
        }
    }

    // The moment of what falls due next, in milliseconds, if it is due up to a moment.
    fn next_by(&self, to: u32) -> Option<u32>
        ensures due { IfSome result (λ moment. moment ≤ to) }
        ensures next { IfSome result (λ moment. IsNextMoment (dues_of self.now.agent) (Some moment)) }
        ensures none { IfNone result ((journal : Journal) → Stands self.now journal → NoneIsDue to journal) }
        ensures nothing { IfNone result (NothingIsDue to self.now.agent) }
    {
        match self.agent.next_due() {
            Some(moment) if moment <= u64::from(to) => Some(moment as u32),
            _ => None,
        }
    }

    // Handles what falls due next, which is due at a moment in milliseconds.
    fn handle<N: Notes>(&mut self, moment: u32, notes: &mut N)
        requires { IsNextMoment (dues_of self.old.agent) (Some moment) }
        ensures handled { (more : List Note) × SaysMore N.since notes.old notes.new (map Notified more)
            × ((journal : Journal) → Stands self.old journal → IsHandled (settings_of self.old) journal moment more self.new) }
        ensures fewer { (latest : ℕ) → moment ≤ latest → dues_left_of self.new.agent latest < dues_left_of self.old.agent latest }
        ensures settings { settings_of self.new ≡ settings_of self.old }
        ensures last { last_given self.new ≡ max (last_given self.old) moment }
        ensures frames { frames_given self.new ≡ frames_given self.old }
    {
        let mut message = [0; MOST_REPLY];
        if let Some(length) = self.agent.due(moment, &mut message) {
            notes.note(moment, &message[..length]);
        }
    }

    /// Handles what is due up to the moment of a frame, as `advance` does, and counts the frame. Its moment, in milliseconds, isn't below the last one given, it had at most 262,144 octets and was captured with no more than it had, and
    /// fewer than `MOST_FRAMES` frames were given before.
    pub fn frame<N: Notes>(&mut self, frame: &Frame<'_>, notes: &mut N)
        requires later { last_given self.old ≤ frame.now.moment }
        requires captured { length frame.now.bytes.now ≤ frame.now.original }
        requires original { frame.now.original ≤ 262144 }
        requires room { frames_given self.old < MOST_FRAMES }
        ensures passes { (more : List Note) × SaysMore N.since notes.old notes.new (map Notified more)
            × ((journal : Journal) → Stands self.old journal → (ready : Journal)
            × IsAdvanced (settings_of self.old) frame.now.moment journal more ready
            × Stands self.new (passes (frame_of frame.now) ∷ ready)) }
        ensures settings { settings_of self.new ≡ settings_of self.old }
        ensures last { last_given self.new ≡ frame.now.moment }
        ensures frames { frames_given self.new ≡ frames_given self.old + 1 }
    {
        advance_is_orderly();
        self.advance(frame.moment, notes);
        self.agent.frame(frame);
    }

    /// Handles what is due up to a moment, in milliseconds, as `advance` does, and answers a datagram at it. The moment isn't below the last one given. A reply comes to the front of `out`. Drop says why there is none.
    pub fn datagram<N: Notes>(
        &mut self,
        alloc: Global,
        bytes: &[u8],
        moment: u32,
        out: &mut [u8; MOST_REPLY],
        notes: &mut N,
    ) -> Answer
        requires { last_given self.old ≤ moment }
        ensures answered { (more : List Note) × SaysMore N.since notes.old notes.new (map Notified more)
            × ((journal : Journal) → Stands self.old journal → (ready after : Journal)
            × IsAdvanced (settings_of self.old) moment journal more ready
            × IsAnswered (settings_of self.old) ready moment bytes.now (response_of result out.new) after × Stands self.new after) }
        ensures storage { (journal : Journal) → Stands self.old journal → (more : List Note) × (ready : Journal)
            × IsAdvanced (settings_of self.old) moment journal more ready
            × IsStorageFirst (settings_of self.old) ready moment bytes.now result out.new (Stands self.new) }
        ensures short { IsShort result }
        ensures settings { settings_of self.new ≡ settings_of self.old }
        ensures last { last_given self.new ≡ moment }
        ensures frames { frames_given self.new ≡ frames_given self.old }
    {
        advance_is_orderly();
        self.advance(moment, notes);
        self.agent.answer(alloc, bytes, moment, out)
    }

    /// The value of the variable with that name at a moment, in milliseconds, which isn't below the last one given, and up to which all was
    /// handled that is due (`advance`). None where there is no such variable.
    pub fn cell(&self, name: &Oid, moment: u32) -> Option<Value<'_>>
        requires later { last_given self.now ≤ moment }
        requires nothing { HasHandledBy moment self.now }
        ensures { (journal : Journal) → Stands self.now journal → option_map val_of result ≡ cells (settings_of self.now) journal moment name.now }
    {
        self.agent.cell(name, moment)
    }
}
