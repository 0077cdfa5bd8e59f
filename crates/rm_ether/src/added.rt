// What a frame adds to a counter.
ghost use Rattle.std.specs.Prelude.{◌≡◌};
ghost use Rattle.rm_ether.specs.Counted.{counted, one_if, has_octets};

use crate::counter::Counter;
use rm_proto::{Cast, Facts};

/// The status of a packet that is longer than a good one, and of one that is shorter (RFC 1757, filterPktStatus).
const OVERSIZE: u8 = 1;

const UNDERSIZE: u8 = 2;

/// What a frame adds to a counter. A capture doesn't tell of frames that were dropped or damaged, nor of collisions.
pub fn added(counter: Counter, facts: &Facts) -> u64
    ensures { result ≡ counted counter facts.now }
{
    match counter {
        Counter::Octets => u64::from(facts.length),
        Counter::Pkts => 1,
        Counter::BroadcastPkts => one_if(facts.good && matches!(facts.cast, Cast::Broad)),
        Counter::MulticastPkts => one_if(facts.good && matches!(facts.cast, Cast::Multi)),
        Counter::UndersizePkts => one_if(facts.status == UNDERSIZE),
        Counter::OversizePkts => one_if(facts.status == OVERSIZE),
        Counter::Pkts64Octets => one_if(has_octets(facts, 64, 64)),
        Counter::Pkts65to127Octets => one_if(has_octets(facts, 65, 127)),
        Counter::Pkts128to255Octets => one_if(has_octets(facts, 128, 255)),
        Counter::Pkts256to511Octets => one_if(has_octets(facts, 256, 511)),
        Counter::Pkts512to1023Octets => one_if(has_octets(facts, 512, 1023)),
        Counter::Pkts1024to1518Octets => one_if(has_octets(facts, 1024, 1518)),
        Counter::DropEvents
        | Counter::CRCAlignErrors
        | Counter::Fragments
        | Counter::Jabbers
        | Counter::Collisions => 0,
    }
}

// 1 for a frame that counts, 0 for one that doesn't.
fn one_if(counts: bool) -> u64
    ensures { result ≡ one_if counts }
{
    u64::from(counts)
}

// Whether a frame has so many octets on the wire, the least and the greatest number included.
fn has_octets(facts: &Facts, least: u32, greatest: u32) -> bool
    ensures { result ≡ has_octets least greatest facts.now }
{
    (least..=greatest).contains(&facts.length)
}
