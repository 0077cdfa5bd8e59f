// The network row of a host.

ghost use Rattle.std.specs.Prelude.{refl};

use crate::counts::{NetworkCounts, Traffic};
use rm_upper::{Counted, KeptApplication, LayerCounts, NetworkRow, Slot};

#[tactic(auto, unfolding(crate::specs::Counts::host_tally))]
impl LayerCounts for NetworkCounts {
    type Row = NetworkRow<NetworkCounts, Traffic>;

    ghost seen = { λ row. row };

    fn gain(
        row: &mut NetworkRow<NetworkCounts, Traffic>,
        slots: &[Option<Slot>; 32],
        path: &[u32],
        stamp: u64,
        tick: u32,
        gain: &NetworkCounts,
    ) -> u32 {
        row.gain(slots, path, stamp, tick, gain)
    }

    fn network(
        row: &NetworkRow<NetworkCounts, Traffic>,
        tick: u32,
    ) -> Option<Counted<NetworkCounts>> {
        row.shown(tick)
    }

    fn applications(
        row: &NetworkRow<NetworkCounts, Traffic>,
    ) -> &[Option<KeptApplication<Traffic>>] {
        row.applications()
    }

    ghost starts = { refl };
}
