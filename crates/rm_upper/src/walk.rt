// The application rows of a network row, by protocol and by mark.

ghost use Rattle.std.specs.Prelude.{◌≡◌, ℕ, ◌<◌, ◌≤◌, ◌^◌, length, IfSome, is_some};
ghost use Rattle.std.specs.Ordering.{nat_cmp};
ghost use Rattle.rm_layers.specs.Marks.{IsLeast, IsAboveName};
ghost use Rattle.rm_layers.specs.Applications.{used, application_at};
ghost use Rattle.rm_upper.specs.Walk.{IsMarked, marked_at, better};
ghost use Rattle.rm_upper.specs.Shown.{shown, shown_all, protocols};
ghost use Rattle.rm_upper.specs.Cells.{counted};

use crate::counts::Counted;
use crate::slots::{KeptApplication, Slot, is_in};

// The protocol of a slot whose application row stands at a mark.
fn marked<A: Copy>(slot: &Option<Slot>, kept: &Option<KeptApplication<A>>, mark: u64) -> Option<u32>
    ensures marked { result ≡ marked_at mark slot.now kept.now }
    ensures reached { IfSome result (λ p. mark < 2 ^ 32) }
{
    match (slot, kept) {
        (Some(slot), Some(kept)) if slot.since <= kept.stamp && mark <= kept.tick as u64 => {
            Some(slot.protocol)
        }
        _ => None,
    }
}

// The better of a protocol that was found and the best so far: above a protocol, and the least.
fn better(from: Option<u32>, found: Option<u32>, best: Option<u32>) -> Option<u32>
    ensures better { result ≡ better from found best }
    ensures reached { (mark : ℕ) → IfSome found (λ p. mark < 2 ^ 32) → IfSome best (λ p. mark < 2 ^ 32) → IfSome result (λ p. mark < 2 ^ 32) }
{
    let Some(protocol) = found else {
        return best;
    };
    let is_above = match from {
        None => true,
        Some(from) => from < protocol,
    };
    let is_better = match best {
        None => true,
        Some(best) => protocol < best,
    };
    if is_above && is_better {
        Some(protocol)
    } else {
        best
    }
}

/// The least protocol above another whose application row stands at a mark.
pub(crate) fn next_protocol<A: Copy>(
    slots: &[Option<Slot>],
    applications: &[Option<KeptApplication<A>>],
    mark: u64,
    from: Option<u32>,
) -> Option<u32>
    requires { length slots.now ≡ length applications.now }
    ensures least { IsLeast nat_cmp (IsMarked mark slots.now applications.now) (IsAboveName nat_cmp from) result }
    ensures reached { IfSome result (λ p. mark < 2 ^ 32) }
{
    let mut best = None;
    for place in 0..slots.len() {
        best = better(
            from,
            marked(&slots[place], &applications[place], mark),
            best,
        );
    }
    best
}

// Whether a slot has an application row.
fn has_application<A: Copy>(slot: &Option<Slot>, kept: &Option<KeptApplication<A>>) -> bool
    ensures { result ≡ is_some (shown slot.now kept.now) }
{
    match (slot, kept) {
        (Some(slot), Some(kept)) => slot.since <= kept.stamp,
        _ => false,
    }
}

/// How many slots have an application row.
pub(crate) fn count_applications<A: Copy>(
    slots: &[Option<Slot>],
    applications: &[Option<KeptApplication<A>>],
) -> u32
    requires same { length slots.now ≡ length applications.now }
    requires few { length slots.now ≤ 32 }
    ensures { result ≡ used (shown_all slots.now applications.now) }
{
    let mut count = 0;
    for place in 0..slots.len() {
        if has_application(&slots[place], &applications[place]) {
            count += 1;
        }
    }
    count
}

// What the application row in a slot shows.
fn show<A: Copy>(slot: &Option<Slot>, kept: &Option<KeptApplication<A>>) -> Option<Counted<A>>
    ensures { result ≡ counted (shown slot.now kept.now) }
{
    match (slot, kept) {
        (Some(slot), Some(kept)) if slot.since <= kept.stamp => Some(Counted {
            created: kept.created,
            tick: kept.tick,
            sums: kept.sums,
        }),
        _ => None,
    }
}

/// What the application row of a protocol shows. None where there is none.
pub(crate) fn show_application<A: Copy>(
    slots: &[Option<Slot>],
    applications: &[Option<KeptApplication<A>>],
    protocol: u32,
) -> Option<Counted<A>>
    requires { length slots.now ≡ length applications.now }
    ensures { result ≡ counted (application_at protocol (protocols slots.now) (shown_all slots.now applications.now)) }
{
    for place in 0..slots.len() {
        if is_in(protocol, &slots[place]) {
            return show(&slots[place], &applications[place]);
        }
    }
    None
}
