// What a Set turns on and off for the rows of a control row.
ghost use Rattle.std.specs.Prelude.{◌≡◌, ℕ, ◌<◌, [], ◌∷◌, if◌then◌else◌};
ghost use Rattle.rm_model.specs.Counting.{Counting};
ghost use Rattle.rm_model.specs.Journal.{Assignments, Journal, assigns};
ghost use Rattle.rm_layers.specs.Applications.{AreApart};
ghost use Rattle.rm_upper.specs.Shown.{protocols};
ghost use Rattle.rm_layer_events.specs.Side.{next_stamp};
ghost use Rattle.rm_layer_slots.specs.On.{is_ip_on};
ghost use Rattle.rm_layer_slots.specs.Settled.{AreSettled};
ghost use Rattle.rm_layer_tables.specs.Layer.{Layer, NamesFew};
ghost use Rattle.rm_layer_tables.specs.Standing.{AreOn, IsHeld, HasBegun};

use rm_evicting::Key;
use rm_upper::{LayerCounts, LayerTable};

/// Turns ip on or off, and the protocols above ip, by those that are on now, each in one slot. A protocol that is on still has the slot
/// that it had, and each other one is on from a stamp, which is that of the next frame. Tells whether ip was turned, by which every row
/// goes.
pub(crate) fn turn<K: Key, N: LayerCounts>(
    table: &mut LayerTable<K, N>,
    on: bool,
    slots: &[Option<u32>; 32],
    stamp: u64,
) -> bool
    requires apart { AreApart slots.now }
    ensures rows { table.new.layered.table.rows ≡ (if result then [] else table.old.layered.table.rows) }
    ensures on { table.new.on ≡ on }
    ensures slots { protocols table.new.layered.slots ≡ slots.now }
    ensures room { table.new.layered.table.room ≡ table.old.layered.table.room }
    ensures next { table.new.next ≡ table.old.next }
    ensures latest { table.new.latest ≡ table.old.latest }
    ensures stands { (layer : Layer K N) (settings : Counting) (row moment : ℕ) (values : Assignments) (earlier : Journal) → NamesFew layer → stamp ≡ next_stamp earlier
        → on ≡ is_ip_on layer.kind (assigns moment values ∷ earlier) → AreOn layer.kind slots.now (assigns moment values ∷ earlier) → AreSettled (protocols table.old.layered.slots) slots.now
        → HasBegun layer N.tally K.eq settings (assigns moment values) earlier row table.old → IsHeld layer N.tally K.eq settings (assigns moment values ∷ earlier) row table.new }
{
    let is_turned = on != table.is_ip_on();
    if is_turned {
        table.turn_ip(on);
    }
    table.retune(slots, stamp);
    is_turned
}
