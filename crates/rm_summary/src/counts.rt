// What is counted of frames.
ghost use Rattle.std.specs.Prelude.{◌≡◌, ◌≤◌, ◌<◌, ◌+◌, ◌*◌, ◌++◌, [], ◌∷◌, ◌==◌, if◌then◌else◌, Bool, List, length};
ghost use Rattle.rm_model.specs.Journal.{Frame as Passed};
ghost use Rattle.rm_pcap.specs.Progress.{frame_of};
ghost use Rattle.rm_summary.specs.Text.{is_broadcast, is_multicast};

use crate::figure::Figure;
use rm_pcap::Frame;
use rm_proto::{Cast, Facts, facts};

/// The status of a frame with fewer octets on the wire than a good one, and of one with more (RFC 1757, filterPktStatus).
const UNDERSIZE: u8 = 2;

const OVERSIZE: u8 = 1;

/// What is counted of frames.
#[derive(Clone, Copy)]
pub struct Counts {
    frames: u64,
    octets: u64,
    good: u64,
    undersize: u64,
    oversize: u64,
    broadcast: u64,
    multicast: u64,
    ip: u64,
    first: u32,
    last: u32,
    ghost few: { frames ≤ 100000000 },
    ghost octets_few: { octets ≤ 262148 * frames },
    ghost good_few: { good ≤ frames },
    ghost undersize_few: { undersize ≤ frames },
    ghost oversize_few: { oversize ≤ frames },
    ghost broadcast_few: { broadcast ≤ frames },
    ghost multicast_few: { multicast ≤ frames },
    ghost ip_few: { ip ≤ frames },
}

// Whether a good frame was sent to the broadcast address.
fn is_broadcast(facts: &Facts) -> bool
    ensures { result ≡ is_broadcast facts.now }
{
    facts.good && matches!(facts.cast, Cast::Broad)
}

// Whether a good frame was sent to the address of a group.
fn is_multicast(facts: &Facts) -> bool
    ensures { result ≡ is_multicast facts.now }
{
    facts.good && matches!(facts.cast, Cast::Multi)
}

impl Counts {
    ghost use Rattle.rm_summary.specs.Counted.{AreCounted, IsAdded, figure_in};

    /// What is counted of no frame.
    pub fn new() -> Counts
        ensures counted { (keep_short : Bool) → AreCounted keep_short [] result }
        ensures frames { result.frames ≡ 0 }
    {
        Counts {
            frames: 0,
            octets: 0,
            good: 0,
            undersize: 0,
            oversize: 0,
            broadcast: 0,
            multicast: 0,
            ip: 0,
            first: 0,
            last: 0,
        }
    }

    /// Counts a frame, which had at most 262,144 octets and was captured with no more than it had. Fewer than 100,000,000 were
    /// counted before.
    pub fn count(&mut self, frame: &Frame<'_>, keep_short: bool)
        requires captured { length frame.now.bytes.now ≤ frame.now.original }
        requires original { frame.now.original ≤ 262144 }
        requires room { self.old.frames < 100000000 }
        ensures counted { (frames : List Passed) → AreCounted keep_short frames self.old → AreCounted keep_short (frames ++ frame_of frame.now ∷ []) self.new }
        ensures frames { self.new.frames ≡ self.old.frames + 1 }
    {
        let facts = facts(frame.bytes, frame.original, keep_short);
        *self = self.with(&facts, frame.moment);
    }

    // These, and a frame with these facts at a moment.
    fn with(&self, facts: &Facts, moment: u32) -> Counts
        requires room { self.now.frames < 100000000 }
        requires length { facts.now.length ≤ 262148 }
        ensures { IsAdded facts.now moment self.now result }
    {
        Counts {
            frames: self.frames + 1,
            octets: self.octets + u64::from(facts.length),
            good: self.good + u64::from(facts.good),
            undersize: self.undersize + u64::from(facts.status == UNDERSIZE),
            oversize: self.oversize + u64::from(facts.status == OVERSIZE),
            broadcast: self.broadcast + u64::from(is_broadcast(facts)),
            multicast: self.multicast + u64::from(is_multicast(facts)),
            ip: self.ip + u64::from(facts.ip.is_some()),
            first: self.first_with(moment),
            last: moment,
        }
    }

    // The moment of the first frame, where the next one has that moment.
    fn first_with(&self, moment: u32) -> u32
        ensures { result ≡ (if self.now.frames == 0 then moment else self.now.first) }
    {
        if self.frames == 0 { moment } else { self.first }
    }

    /// A figure, as it was counted.
    pub fn figure(&self, figure: Figure) -> u64
        ensures { result ≡ figure_in self.now figure }
    {
        match figure {
            Figure::Frames => self.frames,
            Figure::Octets => self.octets,
            Figure::Good => self.good,
            Figure::Undersize => self.undersize,
            Figure::Oversize => self.oversize,
            Figure::Broadcast => self.broadcast,
            Figure::Multicast => self.multicast,
            Figure::Ip => self.ip,
            Figure::First => u64::from(self.first),
            Figure::Last => u64::from(self.last),
        }
    }
}
