//! Keys told the other way round: rows with each key told so, and the events that they stand for.
#![tactic(auto)]

ghost use Rattle.std.specs.Prelude.{◌≡◌, ◌↔◌, ℕ, List, map, Option, option_map};
ghost use Rattle.std.specs.Ordering.{nat_cmp};
ghost use Rattle.rm_evicting.specs.declared.Row.{Row};
ghost use Rattle.rm_model.specs.Journal.{Frame, Journal};
ghost use Rattle.rm_rows.specs.Table.{keys_of, row_of, IsNextKey};
ghost use Rattle.rm_order.specs.Order.{AreReversed};
ghost use Rattle.rm_layers.specs.Event.{Event};
ghost use Rattle.rm_layers.specs.Marks.{IsLeast, StandsAt, IsAboveName};
ghost use Rattle.rm_upper.specs.Cells.{network_in, application_in_row};
ghost use Rattle.rm_upper.specs.Standing.{Layered, StandsFor};
ghost use Rattle.rm_upper.specs.Tally.{Tally};
ghost use Rattle.rm_upper.specs.Walk.{ShowsNetwork, ShowsApplication};
ghost use Rattle.rm_layer_events.specs.Side.{Reference, Side, IsSide, events};
ghost use Rattle.rm_reversed.specs.Reversed.{reversed_events, reversed_reference, reversed_side, reversed_row, reversed_rows, reversed_layered};

use rm_order::Reversible;

/// Rows that stand for events stand, with each key reversed, for the events with each key reversed.
pub fn stands<K: Reversible, N, A>()
    ensures { (tally : Tally N A) (events : List (Event K N)) (layered : Layered K N A) → StandsFor tally K.eq events layered
        → StandsFor tally K.eq (reversed_events K.reversing events) (reversed_layered K.reversing layered) }
{}

/// Where each frame refers to its keys reversed, the events of a journal are those of the keys, each reversed.
pub fn events<K: Reversible, G>()
    ensures side { (side : Side K G) → IsSide side → IsSide (reversed_side K.reversing side) }
    ensures events { (side : Side K G) (journal : Journal) → events (reversed_side K.reversing side) journal ≡ reversed_events K.reversing (events side journal) }
    ensures by_references { (side : Side K G) (references : Frame → Journal → List (Reference K G))
        → ((frame : Frame) (earlier : Journal) → references frame earlier ≡ map (reversed_reference K.reversing) (side.references frame earlier))
        → (journal : Journal) → events (record side { references = references }) journal ≡ reversed_events K.reversing (events side journal) }
{}

/// The row of a key among rows with each key reversed is that of the key reversed, with its key reversed. The next of keys in an order of
/// their own, which are those of the rows reversed, is the next of these rows.
pub fn rows<K: Reversible, V>()
    ensures row { (rows : List (Row K V)) (key : K) → row_of K.eq key (reversed_rows K.reversing rows) ≡ option_map (reversed_row K.reversing) (row_of K.eq (K.reversing key) rows) }
    ensures next { (ordered : List K) (rows : List (Row K V)) (from next : Option K) → AreReversed K.reversing ordered (keys_of rows) → IsNextKey K.cmp ordered from next
        → IsNextKey K.cmp (keys_of (reversed_rows K.reversing rows)) from next }
{}

/// What rows with each key reversed show of a key is what the rows show of the key reversed.
pub fn shown<K: Reversible, N, A>()
    ensures network { (layered : Layered K N A) (key : K) → network_in (row_of K.eq key (reversed_layered K.reversing layered).table.rows) ≡ network_in (row_of K.eq (K.reversing key) layered.table.rows) }
    ensures application { (layered : Layered K N A) (key : K) (protocol : ℕ)
        → application_in_row layered.slots protocol (row_of K.eq key (reversed_layered K.reversing layered).table.rows) ≡ application_in_row layered.slots protocol (row_of K.eq (K.reversing key) layered.table.rows) }
    ensures network_ticks { (layered : Layered K N A) (key : K) (tick : ℕ) → ShowsNetwork K.eq (reversed_layered K.reversing layered) key tick ↔ ShowsNetwork K.eq layered (K.reversing key) tick }
    ensures application_ticks { (layered : Layered K N A) (key : K) (protocol tick : ℕ)
        → ShowsApplication K.eq (reversed_layered K.reversing layered) (key, protocol) tick ↔ ShowsApplication K.eq layered (K.reversing key, protocol) tick }
    ensures stands_at { (layered : Layered K N A) (mark : ℕ) (key : K)
        → StandsAt (ShowsNetwork K.eq (reversed_layered K.reversing layered)) mark key ↔ StandsAt (ShowsNetwork K.eq layered) mark (K.reversing key) }
    ensures next_in { (layered : Layered K N A) (mark : ℕ) (key : K) (from next : Option ℕ)
        → IsLeast nat_cmp (λ protocol. StandsAt (ShowsApplication K.eq layered) mark (K.reversing key, protocol)) (IsAboveName nat_cmp from) next
        → IsLeast nat_cmp (λ protocol. StandsAt (ShowsApplication K.eq (reversed_layered K.reversing layered)) mark (key, protocol)) (IsAboveName nat_cmp from) next }
{}
