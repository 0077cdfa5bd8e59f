// Slots of protocols, and the application row in one. A row from before its protocol was last turned on is none.

ghost use Rattle.std.specs.Prelude.{◌≡◌, ◌<◌, true, false, length, slice_index_or, IfSome, IfNone, None};
ghost use Rattle.rm_layers.specs.Applications.{is_in, has_slot};
ghost use Rattle.rm_upper.specs.Shown.{protocol_of, protocols};
ghost use Rattle.rm_upper.specs.Standing.{slot_after, slots_after};
ghost use Rattle.rm_upper.specs.Kept.{first, taken, is_made};

use crate::counts::Counts;

/// A protocol above ip that is on, by its local index in the directory, since a stamp: what comes from it on counts.
#[derive(Clone, Copy, PartialEq, Eq, Debug)]
pub struct Slot {
    /// The local index.
    pub protocol: u32,
    /// The stamp.
    pub since: u64,
}

/// An application row: the stamp and the tick of its first contribution, the tick of its last one, and what they add up to. It is one
/// of its slot only if its first contribution came when the protocol there was on already.
#[derive(Clone, Copy, PartialEq, Eq, Debug)]
pub struct KeptApplication<A> {
    /// The stamp of its first contribution.
    pub stamp: u64,
    /// The tick of its first contribution.
    pub created: u32,
    /// The tick of its last contribution.
    pub tick: u32,
    /// What its contributions add up to.
    pub sums: A,
}

/// Whether a contribution to a slot makes an application row there.
pub(crate) fn makes<A: Copy>(slot: &Slot, kept: &Option<KeptApplication<A>>) -> bool
    ensures { result ≡ is_made slot.now kept.now }
{
    match kept {
        Some(kept) => kept.stamp < slot.since,
        None => true,
    }
}

// The application row that a contribution makes.
fn made<N: Counts>(stamp: u64, tick: u32, gain: &N) -> KeptApplication<N::Application>
    ensures { result ≡ first N.tally stamp tick gain.now }
{
    let mut sums = N::no_application();
    N::add_to(&mut sums, gain);
    KeptApplication {
        stamp,
        created: tick,
        tick,
        sums,
    }
}

/// The application row of a slot with one contribution more.
pub(crate) fn take<N: Counts>(
    slot: &Slot,
    kept: &Option<KeptApplication<N::Application>>,
    stamp: u64,
    tick: u32,
    gain: &N,
) -> KeptApplication<N::Application>
    ensures { result ≡ taken N.tally slot.now stamp tick gain.now kept.now }
{
    match kept {
        Some(kept) if kept.stamp >= slot.since => {
            let mut sums = kept.sums;
            N::add_to(&mut sums, gain);
            KeptApplication {
                tick,
                sums,
                ..*kept
            }
        }
        _ => made(stamp, tick, gain),
    }
}

/// Whether a protocol is in a slot.
pub(crate) fn is_in(protocol: u32, slot: &Option<Slot>) -> bool
    ensures { result ≡ is_in protocol (protocol_of slot.now) }
{
    match slot {
        None => false,
        Some(slot) => protocol == slot.protocol,
    }
}

/// The place of a slot with a protocol. None where there is none.
pub(crate) fn place_of(slots: &[Option<Slot>], protocol: u32) -> Option<usize>
    ensures found { IfSome result (λ place. (place < length slots.now) × (is_in protocol (protocol_of (slice_index_or slots.now place None)) ≡ true)) }
    ensures none { IfNone result (has_slot protocol (protocols slots.now) ≡ false) }
{
    for place in 0..slots.len() {
        if is_in(protocol, &slots[place]) {
            return Some(place);
        }
    }
    None
}

// What a slot has after a change: it stays as it is where its protocol does, and another protocol is on from this stamp.
fn retuned(slot: &Option<Slot>, protocol: Option<u32>, stamp: u64) -> Option<Slot>
    ensures { result ≡ slot_after stamp slot.now protocol }
{
    let protocol = protocol?;
    match slot {
        Some(slot) if slot.protocol == protocol => Some(*slot),
        _ => Some(Slot {
            protocol,
            since: stamp,
        }),
    }
}

/// What all slots have after a change.
pub(crate) fn retune_all(slots: &mut [Option<Slot>], protocols: &[Option<u32>], stamp: u64)
    requires { length protocols.now ≡ length slots.old }
    ensures { slots.new ≡ slots_after stamp slots.old protocols.now }
{
    for place in 0..slots.len() {
        slots[place] = retuned(&slots[place], protocols[place], stamp);
    }
}
