// What is counted of a host.
ghost use Rattle.std.specs.Prelude.{◌≡◌};
ghost use Rattle.rm_hosts.specs.Columns.{counter_in};
ghost use Rattle.rm_hosts.specs.Counts.{no_counts, with_gain, gain_in, gain_out};

use rm_evicting::Blank;
use rm_keyed::Counts;
use rm_proto::{Cast, Facts};
use rm_sourced::Counters;

/// What is counted of a host since it entered its table (RFC 1757, section 5).
#[derive(Clone, Copy, Debug, PartialEq, Eq)]
pub struct HostCounts {
    /// The good frames to it.
    pub in_pkts: u64,
    /// The frames from it.
    pub out_pkts: u64,
    /// The octets of the good frames to it.
    pub in_octets: u64,
    /// The octets of the frames from it.
    pub out_octets: u64,
    /// The bad frames from it.
    pub out_errors: u64,
    /// The good frames from it to the broadcast address.
    pub out_broadcast: u64,
    /// The good frames from it to the address of a group.
    pub out_multicast: u64,
}

impl Blank for HostCounts {
    ghost blank_value = { no_counts };

    fn blank() -> HostCounts {
        HostCounts {
            in_pkts: 0,
            out_pkts: 0,
            in_octets: 0,
            out_octets: 0,
            out_errors: 0,
            out_broadcast: 0,
            out_multicast: 0,
        }
    }
}

impl Counts for HostCounts {
    ghost plus = { with_gain };

    fn add(&mut self, gain: &Self) {
        self.in_pkts = self.in_pkts.wrapping_add(gain.in_pkts);
        self.out_pkts = self.out_pkts.wrapping_add(gain.out_pkts);
        self.in_octets = self.in_octets.wrapping_add(gain.in_octets);
        self.out_octets = self.out_octets.wrapping_add(gain.out_octets);
        self.out_errors = self.out_errors.wrapping_add(gain.out_errors);
        self.out_broadcast = self.out_broadcast.wrapping_add(gain.out_broadcast);
        self.out_multicast = self.out_multicast.wrapping_add(gain.out_multicast);
    }
}

impl Counters for HostCounts {
    ghost counter_in = { counter_in };

    fn counter(&self, column: u32) -> u64 {
        match column {
            4 => self.in_pkts,
            5 => self.out_pkts,
            6 => self.in_octets,
            7 => self.out_octets,
            8 => self.out_errors,
            9 => self.out_broadcast,
            _ => self.out_multicast,
        }
    }
}

impl HostCounts {
    /// What a good frame adds to the counts of its destination.
    pub(crate) fn received(facts: &Facts) -> HostCounts
        ensures { result ≡ gain_in facts.now }
    {
        HostCounts {
            in_pkts: 1,
            in_octets: u64::from(facts.length),
            ..HostCounts::blank()
        }
    }

    /// What a frame adds to the counts of its source.
    pub(crate) fn sent(facts: &Facts) -> HostCounts
        ensures { result ≡ gain_out facts.now }
    {
        HostCounts {
            out_pkts: 1,
            out_octets: u64::from(facts.length),
            out_errors: u64::from(!facts.good),
            out_broadcast: u64::from(facts.good && facts.cast == Cast::Broad),
            out_multicast: u64::from(facts.good && facts.cast == Cast::Multi),
            ..HostCounts::blank()
        }
    }
}
