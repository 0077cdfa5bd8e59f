// What a row of etherStats counts.
ghost use Rattle.std.specs.Prelude.{◌≡◌, ◌+◌, ◌%◌, ◌^◌, ◌<◌, ◌≤◌};

use crate::added::added;
use crate::change::Adding;
use crate::counter::Counter;
use rm_group::{MOST_FRAMES, MOST_OCTETS};
use rm_proto::Facts;

/// The sums over frames that a row of etherStats or of etherHistory counts, each modulo 2^64.
#[derive(Clone, Copy, Default)]
pub struct Statistics {
    /// All packets, bad ones included.
    pub packets: u64,
    /// Their octets on the wire.
    pub octets: u64,
    /// The good packets to the broadcast address.
    pub broadcast: u64,
    /// The good packets to other addresses of groups.
    pub multicast: u64,
    /// The packets shorter than a good one.
    pub undersize: u64,
    /// The packets longer than a good one.
    pub oversize: u64,
    /// The packets by their octets on the wire.
    pub of_64: u64,
    pub of_65_to_127: u64,
    pub of_128_to_255: u64,
    pub of_256_to_511: u64,
    pub of_512_to_1023: u64,
    pub of_1024_to_1518: u64,
}

impl Statistics {
    ghost use Rattle.rm_ether.specs.Counted.{counted, counted_from};
    ghost use Rattle.rm_ether.specs.Standing.{counter_of, sums_of, no_sums, AreBounded};
    ghost use Rattle.rm_ether.specs.declared.counter.Counter.{Counter};

    /// Of no frame.
    pub fn new() -> Statistics
        ensures value { result ≡ no_sums }
        ensures counters { (each : Counter) → counter_of result each ≡ 0 }
        ensures packets { result.packets ≡ 0 }
        ensures bounded { AreBounded result }
    {
        Statistics {
            packets: 0,
            octets: 0,
            broadcast: 0,
            multicast: 0,
            undersize: 0,
            oversize: 0,
            of_64: 0,
            of_65_to_127: 0,
            of_128_to_255: 0,
            of_256_to_511: 0,
            of_512_to_1023: 0,
            of_1024_to_1518: 0,
        }
    }

    /// Counts a frame where it is of that interface. So few were counted that the sums are exact.
    pub fn pass(&mut self, source: u32, adding: &Adding<'_>)
        requires length { adding.now.facts.now.length ≤ MOST_OCTETS }
        requires room { self.old.packets < MOST_FRAMES }
        requires bounded { AreBounded self.old }
        ensures sums { (each : Counter) → counter_of self.new each ≡ counter_of self.old each + counted_from source each adding.now.facts.now }
        ensures packets { self.new.packets ≤ self.old.packets + 1 }
        ensures bounded { AreBounded self.new }
    {
        if adding.facts.interface == source {
            self.add(&adding.added);
        }
    }

    /// What a frame adds to each sum.
    pub fn of_frame(facts: &Facts) -> Statistics
        ensures { result ≡ sums_of (λ each. counted each facts.now) }
    {
        Statistics {
            packets: added(Counter::Pkts, facts),
            octets: added(Counter::Octets, facts),
            broadcast: added(Counter::BroadcastPkts, facts),
            multicast: added(Counter::MulticastPkts, facts),
            undersize: added(Counter::UndersizePkts, facts),
            oversize: added(Counter::OversizePkts, facts),
            of_64: added(Counter::Pkts64Octets, facts),
            of_65_to_127: added(Counter::Pkts65to127Octets, facts),
            of_128_to_255: added(Counter::Pkts128to255Octets, facts),
            of_256_to_511: added(Counter::Pkts256to511Octets, facts),
            of_512_to_1023: added(Counter::Pkts512to1023Octets, facts),
            of_1024_to_1518: added(Counter::Pkts1024to1518Octets, facts),
        }
    }

    /// Adds other sums to them, each modulo 2^64.
    pub fn add(&mut self, more: &Statistics)
        ensures { self.new ≡ sums_of (λ each. (counter_of self.old each + counter_of more.now each) % 2 ^ 64) }
    {
        self.packets = self.packets.wrapping_add(more.packets);
        self.octets = self.octets.wrapping_add(more.octets);
        self.broadcast = self.broadcast.wrapping_add(more.broadcast);
        self.multicast = self.multicast.wrapping_add(more.multicast);
        self.undersize = self.undersize.wrapping_add(more.undersize);
        self.oversize = self.oversize.wrapping_add(more.oversize);
        self.of_64 = self.of_64.wrapping_add(more.of_64);
        self.of_65_to_127 = self.of_65_to_127.wrapping_add(more.of_65_to_127);
        self.of_128_to_255 = self.of_128_to_255.wrapping_add(more.of_128_to_255);
        self.of_256_to_511 = self.of_256_to_511.wrapping_add(more.of_256_to_511);
        self.of_512_to_1023 = self.of_512_to_1023.wrapping_add(more.of_512_to_1023);
        self.of_1024_to_1518 = self.of_1024_to_1518.wrapping_add(more.of_1024_to_1518);
    }

    /// The value of a counter. That of frames that were lost, damaged or collided is 0, since a capture doesn't have these.
    pub fn of(&self, counter: Counter) -> u64
        ensures { result ≡ counter_of self.now counter }
    {
        match counter {
            Counter::Octets => self.octets,
            Counter::Pkts => self.packets,
            Counter::BroadcastPkts => self.broadcast,
            Counter::MulticastPkts => self.multicast,
            Counter::UndersizePkts => self.undersize,
            Counter::OversizePkts => self.oversize,
            Counter::Pkts64Octets => self.of_64,
            Counter::Pkts65to127Octets => self.of_65_to_127,
            Counter::Pkts128to255Octets => self.of_128_to_255,
            Counter::Pkts256to511Octets => self.of_256_to_511,
            Counter::Pkts512to1023Octets => self.of_512_to_1023,
            Counter::Pkts1024to1518Octets => self.of_1024_to_1518,
            Counter::DropEvents
            | Counter::CRCAlignErrors
            | Counter::Fragments
            | Counter::Jabbers
            | Counter::Collisions => 0,
        }
    }
}
