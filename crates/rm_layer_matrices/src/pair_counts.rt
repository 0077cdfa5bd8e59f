// What is counted of pairs of addresses.

ghost use Rattle.std.specs.Prelude.{◌≡◌};
ghost use Rattle.rm_layer_matrices.specs.PairCounts.{carried, pair_tally};

use rm_proto::Facts;
use rm_upper::Counts;

/// What a row of nlMatrixSDTable counts, and one of nlMatrixDSTable, alMatrixSDTable and alMatrixDSTable: packets and octets.
#[derive(Clone, Copy, PartialEq, Eq, Debug)]
pub struct PairCounts {
    /// Frames from the source to the destination.
    pub pkts: u64,
    /// Their octets.
    pub octets: u64,
}

impl PairCounts {
    /// What a good frame adds to the counts of its pair (RFC 2021, nlMatrixSDEntry).
    pub fn carried(facts: &Facts) -> PairCounts
        ensures { result ≡ carried facts.now }
    {
        PairCounts {
            pkts: 1,
            octets: u64::from(facts.length),
        }
    }
}

#[tactic(auto, unfolding(crate::specs::PairCounts::pair_tally))]
impl Counts for PairCounts {
    type Application = PairCounts;

    ghost tally = { pair_tally };

    fn none() -> PairCounts {
        PairCounts { pkts: 0, octets: 0 }
    }

    // Sums go on modulo 2^64.
    fn add(&mut self, gain: &PairCounts) {
        self.pkts = self.pkts.wrapping_add(gain.pkts);
        self.octets = self.octets.wrapping_add(gain.octets);
    }

    fn no_application() -> PairCounts {
        Self::none()
    }

    fn add_to(application: &mut PairCounts, gain: &PairCounts) {
        application.add(gain);
    }
}
