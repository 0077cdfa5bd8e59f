// The network row of a pair of addresses.

ghost use Rattle.std.specs.Prelude.{refl};

use crate::pair_counts::PairCounts;
use rm_upper::{Counted, KeptApplication, LayerCounts, NetworkRow, Slot};

#[tactic(auto, unfolding(crate::specs::PairCounts::pair_tally))]
impl LayerCounts for PairCounts {
    type Row = NetworkRow<PairCounts, PairCounts>;

    ghost seen = { λ row. row };

    fn gain(
        row: &mut NetworkRow<PairCounts, PairCounts>,
        slots: &[Option<Slot>; 32],
        path: &[u32],
        stamp: u64,
        tick: u32,
        gain: &PairCounts,
    ) -> u32 {
        row.gain(slots, path, stamp, tick, gain)
    }

    fn network(row: &NetworkRow<PairCounts, PairCounts>, tick: u32) -> Option<Counted<PairCounts>> {
        row.shown(tick)
    }

    fn applications(
        row: &NetworkRow<PairCounts, PairCounts>,
    ) -> &[Option<KeptApplication<PairCounts>>] {
        row.applications()
    }

    ghost starts = { refl };
}
