//! The events that one control row of the network and application layer tables (RFC 2021, section 6) sees of the journal.
#![tactic(auto)]

ghost use Rattle.std.specs.Prelude.{◌≡◌, ℕ, true, false, [], ◌∷◌, is_some};
ghost use Rattle.rm_model.specs.Journal.{Act, Journal};
ghost use Rattle.rm_layers.specs.Event.{on_since, is_ip_on, AreUpTo, AreRising};
ghost use Rattle.rm_layers.specs.Applications.{Slots};
ghost use Rattle.rm_layers.specs.Turning.{is_turned, AreNew, IsChange};
ghost use Rattle.rm_layer_events.specs.Side.{Side, IsSide, events, next_stamp, turned, besides};

/// After each journal what is on by its events is on, stamps rise, what an act turns is one change, and what is on after it and wasn't before
/// is turned. Up to its turning of protocols those are on that were before it.
pub fn seen<K, G>()
    ensures on { (side : Side K G) → IsSide side → (protocol : ℕ) (journal : Journal) → is_some (on_since protocol (events side journal)) ≡ side.is_on protocol journal }
    ensures ip { (side : Side K G) → IsSide side → (journal : Journal) → is_ip_on (events side journal) ≡ side.is_ip_on journal }
    ensures stamps { (side : Side K G) → IsSide side → (journal : Journal) → AreUpTo (next_stamp journal) (events side journal) × AreRising (events side journal) }
    ensures change { (side : Side K G) → IsSide side → (act : Act) (earlier : Journal) (old slots : Slots) → AreNew (turned side act earlier) old slots
        → IsChange (next_stamp earlier) (turned side act earlier) (besides side act earlier) old slots }
    ensures turned { (side : Side K G) → IsSide side → (protocol : ℕ) (act : Act) (earlier : Journal) → side.is_on protocol (act ∷ earlier) ≡ true → side.is_on protocol earlier ≡ false
        → is_turned protocol (turned side act earlier) ≡ true }
    ensures besides { (side : Side K G) → IsSide side → (act : Act) (earlier : Journal)
        → AreUpTo (next_stamp earlier) (besides side act earlier) × ((protocol : ℕ) → is_some (on_since protocol (besides side act earlier)) ≡ side.is_on protocol earlier) }
    ensures first { (side : Side K G) → (old slots : Slots) → AreNew (events side []) old slots → IsChange 0 (events side []) [] old slots }
{}
