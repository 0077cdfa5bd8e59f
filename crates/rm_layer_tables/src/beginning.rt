// The rows of a control row as it becomes active, and over a Set.
ghost use Rattle.std.specs.Prelude.{◌≡◌, [], ◌∷◌, ℕ, true, false, if◌then◌else◌};
ghost use Rattle.rm_val.specs.Val.{int};
ghost use Rattle.rm_model.specs.Counting.{Counting};
ghost use Rattle.rm_model.specs.Journal.{Act, Assignments, Journal, assigns};
ghost use Rattle.rm_layer_events.specs.Side.{next_stamp};
ghost use Rattle.rm_layer_tables.specs.Control.{is_active, control_set};
ghost use Rattle.rm_layer_tables.specs.ControlColumns.{IsInRange};
ghost use Rattle.rm_layer_tables.specs.Layer.{Layer, NamesFew};
ghost use Rattle.rm_layer_tables.specs.Shared.{AreShared};
ghost use Rattle.rm_layer_tables.specs.Standing.{IsHeld, HasBegun};

use crate::held_table::HeldTable;
use crate::layer_columns::LayerColumns;
use crate::shared::LayerShared;
use crate::turning::turn;
use rm_evicting::Key;
use rm_layer_slots::settle;
use rm_upper::LayerCounts;

impl<K: Key, N: LayerCounts> HeldTable<K, N> {
    /// Begins anew, as a control row with these columns becomes active: with no row, and with ip and the protocols above it as they are
    /// before what the Set turns.
    pub fn begin<T>(&mut self, columns: &LayerColumns<T>, shared: &LayerShared)
        requires in_range { IsInRange columns.now }
        ensures none { self.new.table.layered.table.rows ≡ [] }
        ensures next { self.new.table.next ≡ 0 }
        ensures latest { self.new.table.latest ≡ 0 }
        ensures begun { (layer : Layer K N) (settings : Counting) (row : ℕ) (act : Act) (earlier : Journal) → AreShared layer.kind shared.now settings earlier
            → int columns.now.network ≡ control_set layer.control (act ∷ earlier) row 6 → int columns.now.application ≡ control_set layer.control (act ∷ earlier) row 10
            → is_active layer.control earlier row ≡ false → is_active layer.control (act ∷ earlier) row ≡ true
            → HasBegun layer N.tally K.eq settings act earlier row self.new.table }
    {
        self.slots = settle(&[None; 32], &shared.slots);
        let room = columns.room(shared.upper);
        self.table.begin(room as usize, &self.slots, shared.on);
    }

    /// Turns ip and the protocols above it on and off, once a Set is done, by what all rows share after it. A protocol that is on still
    /// keeps its slot, and each other one is on from a stamp, which is that of the next frame. Tells whether ip was turned, by which every
    /// row goes.
    pub fn turn(&mut self, shared: &LayerShared, stamp: u64) -> bool
        ensures rows { self.new.table.layered.table.rows ≡ (if result then [] else self.old.table.layered.table.rows) }
        ensures next { self.new.table.next ≡ self.old.table.next }
        ensures latest { self.new.table.latest ≡ self.old.table.latest }
        ensures turned { (layer : Layer K N) (settings : Counting) (row moment : ℕ) (values : Assignments) (earlier : Journal) → NamesFew layer → stamp ≡ next_stamp earlier
            → AreShared layer.kind shared.now settings (assigns moment values ∷ earlier)
            → HasBegun layer N.tally K.eq settings (assigns moment values) earlier row self.old.table → IsHeld layer N.tally K.eq settings (assigns moment values ∷ earlier) row self.new.table }
    {
        let slots = settle(&self.slots, &shared.slots);
        let is_turned = turn(&mut self.table, shared.on, &slots, stamp);
        self.slots = slots;
        is_turned
    }
}
