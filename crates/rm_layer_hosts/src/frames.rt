// A frame comes to a control row of hosts.

ghost use Rattle.std.specs.Prelude.{◌≡◌, ℕ, ◌+◌, ◌<◌, ◌≤◌, ◌^◌, List, [], ◌∷◌};
ghost use Rattle.rm_model.specs.Journal.{Frame, passes, Journal};
ghost use Rattle.rm_layers.specs.Upper.{AreTuned};
ghost use Rattle.rm_upper.specs.Shown.{protocols, Agrees};
ghost use Rattle.rm_upper.specs.Standing.{StandsFor};
ghost use Rattle.rm_layer_hosts.specs.Counts.{host_tally};
ghost use Rattle.rm_layer_events.specs.Side.{Side, IsSide, events, next_stamp};

use crate::counts::NetworkCounts;
use rm_evicting::Key;
use rm_upper::LayerTable;

/// A host that a frame names, and what the frame adds to its counts.
#[derive(Clone, Copy)]
pub struct Named<K> {
    /// The host, by the key of its address.
    pub key: K,
    /// What the frame adds.
    pub gain: NetworkCounts,
}

/// Takes a good frame with addresses, which refers to its source, and then to its destination. `path` has the protocols on its path that
/// are on. The table then stands for the journal with that frame.
pub fn pass<K: Key>(
    table: &mut LayerTable<K, NetworkCounts>,
    source: &Named<K>,
    destination: &Named<K>,
    path: &[u32],
    stamp: u64,
    tick: u32,
)
    requires next { table.old.next ≤ stamp }
    requires latest { table.old.latest ≤ tick }
    requires fits { stamp + 1 < 2 ^ 58 }
    ensures on { table.new.on ≡ table.old.on }
    ensures slots { table.new.layered.slots ≡ table.old.layered.slots }
    ensures capacity { table.new.layered.table.capacity ≡ table.old.layered.table.capacity }
    ensures room { table.new.layered.table.room ≡ table.old.layered.table.room }
    ensures next { table.new.next ≡ stamp + 2 }
    ensures latest { table.new.latest ≡ tick }
    ensures stands { (side : Side K NetworkCounts) (journal : Journal) (frame : Frame) (whole : List ℕ) → IsSide side
        → side.references frame journal
        ≡ record { key = source.now.key; tick = tick; path = whole; gain = source.now.gain } ∷ record { key = destination.now.key; tick = tick; path = whole; gain = destination.now.gain } ∷ []
        → stamp ≡ next_stamp journal → table.old.on ≡ side.is_ip_on journal → AreTuned (protocols table.old.layered.slots) (events side journal)
        → Agrees table.old.layered.slots path.now (record { stamp = stamp; tick = tick; path = whole; gain = source.now.gain })
        → StandsFor host_tally K.eq (events side journal) table.old.layered → StandsFor host_tally K.eq (events side (passes frame ∷ journal)) table.new.layered }
{
    table.name(source.key, path, stamp, tick, &source.gain);
    table.name(destination.key, path, stamp + 1, tick, &destination.gain);
}
