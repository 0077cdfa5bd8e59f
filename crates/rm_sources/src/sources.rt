// The groups whose variables alarms may sample.
ghost use Rattle.std.specs.Prelude.{◌≡◌, ℕ, ℤ, ◌+◌, ◌<◌, ◌≤◌, max, List, [], ◌∷◌, ◌++◌, length, Option, OnOk};
ghost use Rattle.rm_model.specs.Counting.{Counting};
ghost use Rattle.rm_model.specs.Journal.{Act, Frame, Journal, passes, samples, last_moment, moment_of};
ghost use Rattle.rm_group.specs.declared.bounds.TheConstants.{MOST_FRAMES, MOST_OCTETS};
ghost use Rattle.rm_group.specs.Passing.{IsOf};
ghost use Rattle.rm_acts.specs.declared.firing.Firing.{Firing as Fires};
ghost use Rattle.rm_topn.specs.Due.{HasEnded};
ghost use Rattle.rm_filter.specs.Judging.{AreAccepting};
ghost use Rattle.rm_capture.specs.declared.buffer_row.TheConstants.{MOST_SLICE};
ghost use Rattle.rm_sources.specs.Group.{Stands, IsSetTo, IsAskable, IsStocked, IsUnderWay, FallsDue, collectors_of, frames_given, last_given, left_of};

use rm_acts::Firing;
use rm_channels::Channels;
use rm_collectors::Collectors;
use rm_ether::Ether;
use rm_filter::Accepted;
use rm_group::{Both, Passing, Steps, sample_begins};
use rm_protocols::ProtocolTables;
use rm_settings::Settings;
use rm_val::NoMemory;
use std::alloc::Global;

/// Those that count what all frames bring, or collect it, and those that go by what a frame is.
pub(crate) type Groups = Both<Both<Ether, Collectors>, Both<ProtocolTables, Channels>>;

/// The groups whose variables alarms may sample: etherStats, the tables whose valid rows collect what frames bring, the directory of
/// protocols with what counts by it, and the filters, channels and capture buffers. They may be asked at a moment where the reports of
/// hosts that are due have ended.
///
/// A frame passes (`pass`), its events are then fired in the order of the channels that ask for them (`accepting`), and each firing turns
/// channels (`take`).
#[derive(Drop)]
pub struct Sources {
    pub(crate) groups: Groups,
}

impl Sources {
    /// The groups of a probe that is set so, before the first frame. They have no storage.
    #[inline(never)]
    pub fn new(settings: &Settings) -> Sources
        ensures stands { (counting : Counting) → IsSetTo settings.now counting → Stands result counting [] }
        ensures last { last_given result ≡ 0 }
        ensures frames { frames_given result ≡ 0 }
    {
        Sources {
            groups: Both {
                first: Both {
                    first: Ether::new(settings.interfaces),
                    second: Collectors::new(settings),
                },
                second: Both {
                    first: ProtocolTables::new(settings),
                    second: Channels::new(),
                },
            },
        }
    }

    /// Takes the storage of one row of each table whose rows take storage, which is needed before the first Set. No variable changes.
    /// NoMemory where there is none.
    pub fn reserve(&mut self, alloc: Global) -> Result<(), NoMemory>
        ensures stands { (settings : Counting) (journal : Journal) → Stands self.old settings journal → Stands self.new settings journal }
        ensures stocked { OnOk result (IsStocked self.new) }
        ensures last { last_given self.new ≡ last_given self.old }
        ensures frames { frames_given self.new ≡ frames_given self.old }
    {
        self.groups.first.second.reserve(alloc)?;
        self.groups.second.first.reserve(alloc)?;
        self.groups.second.second.reserve(alloc)
    }

    /// Ends the reports of hosts that are due up to a moment, in milliseconds. The groups may then be asked at that moment.
    pub fn end_by(&mut self, moment: u32)
        ensures stands { (settings : Counting) (journal : Journal) → Stands self.old settings journal → Stands self.new settings journal }
        ensures askable { IsAskable self.new moment }
        ensures ended { HasEnded moment (FallsDue self.old) (FallsDue self.new) (left_of self.old) (left_of self.new) }
        ensures stocked { IsStocked self.old → IsStocked self.new }
        ensures last { last_given self.new ≤ max (last_given self.old) moment }
        ensures frames { frames_given self.new ≡ frames_given self.old }
    {
        self.groups.first.second.end_by(moment);
    }

    /// A frame begins to pass, of which no more octets were captured than are stored of a packet, at a moment which isn't below the one
    /// given last, and at which the groups may be asked. Fewer than `MOST_FRAMES` frames were given before.
    pub fn pass(&mut self, passing: &Passing<'_>)
        requires later { last_given self.old ≤ passing.now.moment }
        requires room { frames_given self.old < MOST_FRAMES }
        requires length { passing.now.facts.length ≤ MOST_OCTETS }
        requires captured { length passing.now.octets.now ≤ MOST_SLICE }
        ensures begins { (settings : Counting) (earlier : Journal) (frame : Frame)
            → IsOf settings frame passing.now.facts passing.now.octets.now passing.now.number passing.now.moment
            → Stands self.old settings earlier → last_moment earlier ≤ passing.now.moment → IsAskable self.old passing.now.moment
            → IsUnderWay self.new settings (passes frame) earlier [] }
        ensures last { last_given self.new ≤ passing.now.moment }
        ensures frames { frames_given self.new ≤ frames_given self.old + 1 }
        ensures stocked { IsStocked self.old → IsStocked self.new }
    {
        self.groups.first.pass(passing);
        self.groups.second.first.pass(passing);
        self.groups.second.second.pass(passing);
    }

    /// The valid channels that accept the frame that passes, in the order of their indexes, as they were before any event fired by it.
    pub fn accepting(&self) -> &[Accepted]
        ensures few { length result.now ≤ 32 }
        ensures accepting { (settings : Counting) (frame : Frame) (earlier : Journal) (some : List Fires)
            → IsUnderWay self.now settings (passes frame) earlier some → AreAccepting settings frame earlier result.now }
    {
        self.groups.second.second.accepting()
    }

    /// Takes a firing of the act that is under way, at its moment in milliseconds: it turns channels.
    pub fn take(&mut self, firing: &Firing, moment: u32)
        ensures under_way { (settings : Counting) (act : Act) (earlier : Journal) (some : List Fires) → moment_of act ≡ moment
            → IsUnderWay self.old settings act earlier some → IsUnderWay self.new settings act earlier (some ++ firing.now ∷ []) }
        ensures collectors { collectors_of self.new ≡ collectors_of self.old }
        ensures last { last_given self.new ≡ last_given self.old }
        ensures frames { frames_given self.new ≡ frames_given self.old }
        ensures stocked { IsStocked self.old → IsStocked self.new }
    {
        self.groups.second.second.take(firing, moment);
    }

    /// A law: the sample of an alarm begins at a moment in milliseconds, which isn't below that of the last act, and at which the groups may
    /// be asked. It does nothing.
    pub fn sample_begins(&self, moment: u32)
        ensures { (settings : Counting) (earlier : Journal) (alarm : ℕ) (reading : Option ℤ) → Stands self.now settings earlier
            → last_moment earlier ≤ moment → IsAskable self.now moment → IsUnderWay self.now settings (samples moment alarm reading) earlier [] }
    {
        sample_begins(&self.groups.first, moment);
        self.groups.second.first.sample_begins(moment);
        self.groups.second.second.sample_begins(moment);
    }
}
