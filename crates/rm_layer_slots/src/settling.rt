// Slots that protocols keep as long as they are on.

ghost use Rattle.std.specs.Prelude.{◌≡◌, ℕ, map, position, None};
ghost use Rattle.std.specs.Option.{is_none};
ghost use Rattle.rm_layers.specs.Applications.{is_in, has_slot, AreApart};
ghost use Rattle.rm_layer_slots.specs.Settled.{AreSettled, kept_in, placed};

/// The slots of the protocols that are on, by their local indexes, and by the slots that there were, of which no protocol had two: a protocol
/// that is on still stays in its slot, and each other one gets one that is free.
pub fn settle(old: &[Option<u32>; 32], on: &[Option<u32>; 32]) -> [Option<u32>; 32]
    requires { AreApart old.now }
    ensures same { AreApart on.now → (protocol : ℕ) → has_slot protocol result ≡ has_slot protocol on.now }
    ensures apart { AreApart result }
    ensures settled { AreSettled old.now result }
{
    let mut slots = kept(old, on);
    for slot in 0..32usize {
        if let Some(protocol) = on[slot] {
            place(&mut slots, protocol);
        }
    }
    slots
}

// The slots whose protocols are on still. Each other one is empty.
fn kept(old: &[Option<u32>; 32], on: &[Option<u32>; 32]) -> [Option<u32>; 32]
    ensures { result ≡ map (kept_in on.now) old.now }
{
    let mut slots = [None; 32];
    for slot in 0..32usize {
        slots[slot] = kept_in(&old[slot], on);
    }
    slots
}

// What is kept of a slot.
fn kept_in(slot: &Option<u32>, on: &[Option<u32>; 32]) -> Option<u32>
    ensures { result ≡ kept_in on.now slot.now }
{
    let protocol = (*slot)?;
    if has_slot(on, protocol) {
        Some(protocol)
    } else {
        None
    }
}

// Gives a protocol that has no slot the first one that is empty, if there is one.
fn place(slots: &mut [Option<u32>; 32], protocol: u32)
    ensures { slots.new ≡ placed protocol slots.old }
{
    if has_slot(slots, protocol) {
        return;
    }
    if let Some(free) = first_empty(slots) {
        slots[free] = Some(protocol);
    }
}

// The first slot that is empty.
fn first_empty(slots: &[Option<u32>]) -> Option<usize>
    ensures { result ≡ position is_none slots.now }
{
    slots.iter().position(|slot| slot.is_none())
}

// Whether a protocol has a slot.
fn has_slot(slots: &[Option<u32>], protocol: u32) -> bool
    ensures { result ≡ has_slot protocol slots.now }
{
    slots.iter().any(|slot| is_in(slot, protocol))
}

// Whether a slot has a protocol.
fn is_in(slot: &Option<u32>, protocol: u32) -> bool
    ensures { result ≡ is_in protocol slot.now }
{
    match slot {
        Some(here) => protocol == *here,
        None => false,
    }
}
