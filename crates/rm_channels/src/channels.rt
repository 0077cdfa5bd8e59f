// Filters, channels and buffers.
ghost use Rattle.std.specs.Prelude.{◌≡◌, ℕ, ℤ, ◌+◌, ◌<◌, ◌≤◌, List, [], ◌∷◌, ◌++◌, length, Option, OnOk};
ghost use Rattle.rm_model.specs.Counting.{Counting};
ghost use Rattle.rm_model.specs.Journal.{Act, Frame, Journal, passes, samples, last_moment, moment_of};
ghost use Rattle.rm_group.specs.declared.bounds.TheConstants.{MOST_FRAMES, MOST_OCTETS};
ghost use Rattle.rm_group.specs.Passing.{IsOf};
ghost use Rattle.rm_acts.specs.Fired.{act_fires, fired};
ghost use Rattle.rm_acts.specs.declared.firing.Firing.{Firing as Fires};
ghost use Rattle.rm_filter.specs.Judging.{AreAccepting};
ghost use Rattle.rm_capture.specs.declared.buffer_row.TheConstants.{MOST_SLICE};
ghost use Rattle.rm_channels.specs.Group.{Stands, IsUnderWay, IsStocked, frames_given, last_given};

use rm_acts::Firing;
use rm_capture::Buffers;
use rm_filter::{Accepted, Filters};
use rm_group::{Both, Passing, Steps};
use rm_val::NoMemory;
use std::alloc::Global;

/// The filters and the channels, and beside them the buffers.
pub(crate) type Groups = Both<Filters, Buffers>;

/// The filters, the channels and the capture buffers of the probe (RFC 1757, section 5): filterTable and channelTable, bufferControlTable
/// and captureBufferTable.
///
/// A frame is first judged by all channels (`pass`), and buffers keep it for those that are on and accept it. Its events are then fired in
/// the order of the channels that ask for them (`accepting`), and each firing turns channels (`take`).
#[derive(Drop)]
pub struct Channels {
    pub(crate) groups: Groups,
}

impl Channels {
    /// No filter, no channel and no buffer, and no storage.
    #[tactic(auto, unfolding(rm_capture::specs::Collection::buffer_collection))]
    pub fn new() -> Channels
        ensures stands { (settings : Counting) → Stands result settings [] }
        ensures frames { frames_given result ≡ 0 }
        ensures last { last_given result ≡ 0 }
    {
        Channels {
            groups: Both {
                first: Filters::new(),
                second: Buffers::new(()),
            },
        }
    }

    /// Takes the storage of one buffer, which is needed before the first Set. No variable changes. NoMemory where there is none.
    pub fn reserve(&mut self, alloc: Global) -> Result<(), NoMemory>
        ensures stands { (settings : Counting) (journal : Journal) → Stands self.old settings journal → Stands self.new settings journal }
        ensures stocked { OnOk result (IsStocked self.new) }
        ensures frames { frames_given self.new ≡ frames_given self.old }
        ensures last { last_given self.new ≡ last_given self.old }
    {
        self.groups.second.reserve(alloc)
    }

    /// A frame begins to pass, of which no more octets were captured than are stored of a packet, at a moment which isn't below the one
    /// given last: all channels judge it, and buffers keep it. Fewer than `MOST_FRAMES` frames were given before.
    #[tactic(auto, unfolding(rm_capture::specs::Collection::buffer_collection))]
    pub fn pass(&mut self, passing: &Passing<'_>)
        requires later { last_given self.old ≤ passing.now.moment }
        requires room { frames_given self.old < MOST_FRAMES }
        requires length { passing.now.facts.length ≤ MOST_OCTETS }
        requires captured { length passing.now.octets.now ≤ MOST_SLICE }
        ensures begins { (settings : Counting) (earlier : Journal) (frame : Frame)
            → IsOf settings frame passing.now.facts passing.now.octets.now passing.now.number passing.now.moment
            → Stands self.old settings earlier → last_moment earlier ≤ passing.now.moment
            → IsUnderWay self.new settings (passes frame) earlier [] }
        ensures frames { frames_given self.new ≡ frames_given self.old + 1 }
        ensures last { last_given self.new ≡ passing.now.moment }
        ensures stocked { IsStocked self.old → IsStocked self.new }
    {
        self.groups.first.pass(passing);
        let accepting = self.groups.first.accepting();
        self.groups.second.take_judged(accepting, passing);
    }

    /// The valid channels that accept the frame that passes, in the order of their indexes, as they were before any event fired by it.
    pub fn accepting(&self) -> &[Accepted]
        ensures few { length result.now ≤ 32 }
        ensures accepting { (settings : Counting) (frame : Frame) (earlier : Journal) (some : List Fires)
            → IsUnderWay self.now settings (passes frame) earlier some → AreAccepting settings frame earlier result.now }
    {
        self.groups.first.accepting()
    }

    /// Takes a firing of the act that is under way, at its moment in milliseconds: it turns channels.
    pub fn take(&mut self, firing: &Firing, moment: u32)
        ensures under_way { (settings : Counting) (act : Act) (earlier : Journal) (some : List Fires) → moment_of act ≡ moment
            → IsUnderWay self.old settings act earlier some → IsUnderWay self.new settings act earlier (some ++ firing.now ∷ []) }
        ensures frames { frames_given self.new ≡ frames_given self.old }
        ensures last { last_given self.new ≡ last_given self.old }
        ensures stocked { IsStocked self.old → IsStocked self.new }
    {
        self.groups.first.take(firing, moment);
    }

    /// A law: an act has ended where all of its firings were taken. It does nothing.
    pub fn ends(&self)
        ensures { (settings : Counting) (act : Act) (earlier : Journal)
            → IsUnderWay self.now settings act earlier (act_fires settings act earlier (fired settings earlier)) → Stands self.now settings (act ∷ earlier) }
    {}

    /// A law: the sample of an alarm begins at a moment in milliseconds, which isn't below that of the last act. It does nothing.
    pub fn sample_begins(&self, moment: u32)
        ensures { (settings : Counting) (earlier : Journal) (alarm : ℕ) (reading : Option ℤ) → Stands self.now settings earlier → last_moment earlier ≤ moment
            → IsUnderWay self.now settings (samples moment alarm reading) earlier [] }
    {}
}
