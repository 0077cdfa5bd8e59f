// What is counted of a pair of hosts.
ghost use Rattle.std.specs.Prelude.{◌≡◌};
ghost use Rattle.rm_matrix.specs.Columns.{counter_in};
ghost use Rattle.rm_matrix.specs.Counts.{gain, no_counts, with_gain};

use rm_evicting::Blank;
use rm_keyed::Counts;
use rm_proto::Facts;
use rm_sourced::Counters;

/// What is counted of a pair of hosts since it entered its table (RFC 1757, section 5).
#[derive(Clone, Copy, Debug, PartialEq, Eq)]
pub struct PairCounts {
    /// The frames from the source to the destination.
    pub pkts: u64,
    /// Their octets.
    pub octets: u64,
    /// The bad ones among them.
    pub errors: u64,
}

impl Blank for PairCounts {
    ghost blank_value = { no_counts };

    fn blank() -> PairCounts {
        PairCounts {
            pkts: 0,
            octets: 0,
            errors: 0,
        }
    }
}

impl Counts for PairCounts {
    ghost plus = { with_gain };

    fn add(&mut self, gain: &Self) {
        self.pkts = self.pkts.wrapping_add(gain.pkts);
        self.octets = self.octets.wrapping_add(gain.octets);
        self.errors = self.errors.wrapping_add(gain.errors);
    }
}

impl Counters for PairCounts {
    ghost counter_in = { counter_in };

    fn counter(&self, column: u32) -> u64 {
        match column {
            4 => self.pkts,
            5 => self.octets,
            _ => self.errors,
        }
    }
}

impl PairCounts {
    /// What a frame adds to the counts of its pair.
    pub(crate) fn of(facts: &Facts) -> PairCounts
        ensures { result ≡ gain facts.now }
    {
        PairCounts {
            pkts: 1,
            octets: u64::from(facts.length),
            errors: u64::from(!facts.good),
        }
    }
}
