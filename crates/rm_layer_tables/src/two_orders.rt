// The rows of a control row, which are shown in two orders of their keys.
ghost use Rattle.std.specs.Prelude.{◌≡◌, ◌∷◌, ◌+◌, ◌<◌, ◌≤◌, ◌^◌, List, [], ℕ, IfOk, true, false};
ghost use Rattle.rm_val.specs.Val.{int};
ghost use Rattle.rm_model.specs.Counting.{Counting};
ghost use Rattle.rm_model.specs.Journal.{Act, Assignments, Journal, assigns};
ghost use Rattle.rm_layers.specs.Event.{Contribution, Event, names, is_ip_on, AreRising};
ghost use Rattle.rm_layers.specs.Upper.{AreTuned};
ghost use Rattle.rm_layer_events.specs.Side.{next_stamp};
ghost use Rattle.rm_reversed.specs.Reversed.{reversed_layered};
ghost use Rattle.rm_layer_tables.specs.Control.{is_active, control_set};
ghost use Rattle.rm_layer_tables.specs.ControlColumns.{IsInRange};
ghost use Rattle.rm_layer_tables.specs.Layer.{Layer, NamesFew};
ghost use Rattle.rm_layer_tables.specs.Shared.{AreShared};
ghost use Rattle.rm_layer_tables.specs.Standing.{IsHeld, HasBegun};

use crate::held_table::{HeldTable, MOST_ROWS};
use crate::layer_columns::LayerColumns;
use crate::shared::LayerShared;
use rm_order::{OrderedKeys, Reversible};
use rm_upper::{LayerCounts, RowOrder};
use rm_val::NoMemory;
use std::alloc::Global;
use std::marker::Model;

/// The rows of the network and application layer that a control row has, which are shown by their keys, and by these reversed: the rows once,
/// and the reversed keys in their order. Contracts see the rows.
#[derive(Drop)]
pub struct TwoOrders<K: Reversible, N: LayerCounts> {
    first: HeldTable<K, N>,
    reverse: OrderedKeys<K>,
}

impl<K: Reversible, N: LayerCounts> Model for TwoOrders<K, N> {
    ghost use Rattle.std.specs.Prelude.{◌≤◌};
    ghost use Rattle.rm_rows.specs.Table.{keys_of};
    ghost use Rattle.rm_order.specs.Order.{AreReversed};
    ghost use Rattle.rm_upper.specs.LayerTable.{LayerTable};

    ghost Value = { LayerTable K N N.Application };

    ghost view = { λ s. s.first.table };

    ghost invariant = { λ s. AreReversed K.reversing s.reverse.keys (keys_of s.first.table.layered.table.rows) × (1024 ≤ s.reverse.room) };
}

impl<K: Reversible, N: LayerCounts> TwoOrders<K, N> {
    ghost use Rattle.rm_upper.specs.Shown.{protocols, Agrees};
    ghost use Rattle.rm_upper.specs.Standing.{StandsFor};

    /// No rows, with storage for 1024 network rows. NoMemory where there is none.
    pub fn spare(alloc: Global) -> Result<TwoOrders<K, N>, NoMemory>
        ensures none { IfOk result (λ rows. rows.layered.table.rows ≡ []) }
    {
        let first = HeldTable::spare(alloc)?;
        let reverse = OrderedKeys::new(alloc, MOST_ROWS)?;
        Ok(TwoOrders { first, reverse })
    }

    /// The rows by their keys.
    pub fn first(&self) -> &HeldTable<K, N>
        ensures { result.now.table ≡ self.now }
    {
        &self.first
    }

    /// Begins anew, as a control row with these columns becomes active: with no row, and with ip and the protocols above it as they are
    /// before what the Set turns.
    pub fn begin<T>(&mut self, columns: &LayerColumns<T>, shared: &LayerShared)
        requires in_range { IsInRange columns.now }
        ensures next { self.new.next ≡ 0 }
        ensures latest { self.new.latest ≡ 0 }
        ensures begun { (layer : Layer K N) (settings : Counting) (row : ℕ) (act : Act) (earlier : Journal) → AreShared layer.kind shared.now settings earlier
            → int columns.now.network ≡ control_set layer.control (act ∷ earlier) row 6 → int columns.now.application ≡ control_set layer.control (act ∷ earlier) row 10
            → is_active layer.control earlier row ≡ false → is_active layer.control (act ∷ earlier) row ≡ true
            → HasBegun layer N.tally K.eq settings act earlier row self.new }
    {
        self.first.begin(columns, shared);
        self.reverse.clear();
    }

    /// Turns ip and the protocols above it on and off, once a Set is done, by what all rows share after it. A protocol that is on still
    /// keeps its slot, and each other one is on from a stamp, which is that of the next frame.
    pub fn turn(&mut self, shared: &LayerShared, stamp: u64)
        ensures next { self.new.next ≡ self.old.next }
        ensures latest { self.new.latest ≡ self.old.latest }
        ensures turned { (layer : Layer K N) (settings : Counting) (row moment : ℕ) (values : Assignments) (earlier : Journal) → NamesFew layer → stamp ≡ next_stamp earlier
            → AreShared layer.kind shared.now settings (assigns moment values ∷ earlier)
            → HasBegun layer N.tally K.eq settings (assigns moment values) earlier row self.old → IsHeld layer N.tally K.eq settings (assigns moment values ∷ earlier) row self.new }
    {
        if self.first.turn(shared, stamp) {
            self.reverse.clear();
        }
    }

    /// Takes a frame that names a key, with the protocols on its path that are on, its stamp, its tick, and what it adds: a reference while
    /// ip is on.
    pub fn name(&mut self, key: K, path: &[u32], stamp: u64, tick: u32, gain: &N)
        requires next { self.old.next ≤ stamp }
        requires latest { self.old.latest ≤ tick }
        requires fits { stamp < 2 ^ 58 }
        ensures on { self.new.on ≡ self.old.on }
        ensures slots { self.new.layered.slots ≡ self.old.layered.slots }
        ensures capacity { self.new.layered.table.capacity ≡ self.old.layered.table.capacity }
        ensures next { self.new.next ≡ stamp + 1 }
        ensures latest { self.new.latest ≡ tick }
        ensures stands { (earlier : List (Event K N)) (brings : Contribution N) → brings.stamp ≡ stamp → brings.tick ≡ tick → brings.gain ≡ gain.now
            → Agrees self.old.layered.slots path.now brings → is_ip_on earlier ≡ self.old.on → AreTuned (protocols self.old.layered.slots) earlier → AreRising (names key brings ∷ earlier)
            → StandsFor N.tally K.eq earlier self.old.layered → StandsFor N.tally K.eq (names key brings ∷ earlier) self.new.layered }
    {
        let touch = self.first.table.name(key, path, stamp, tick, gain);
        self.reverse.follow(&key, &touch);
    }
}

impl<K: Reversible, N: LayerCounts> RowOrder for TwoOrders<K, N> {
    type Key = K;

    type Counts = N;

    ghost seen = { λ table. reversed_layered K.reversing table.layered };

    fn after(&self, key: Option<&K>) -> Option<K> {
        self.reverse.after(key).copied()
    }

    fn stands_at(&self, key: &K, mark: u64) -> bool {
        self.first.table.rows().stands_at(&key.reversed(), mark)
    }

    fn next_in(&self, key: &K, mark: u64, from: Option<u32>) -> Option<u32> {
        self.first.table.rows().next_in(&key.reversed(), mark, from)
    }
}
