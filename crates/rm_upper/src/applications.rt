// The application rows of a network row, each in the slot of its protocol.

ghost use Rattle.std.specs.Prelude.{◌≡◌, ◌<◌, ◌≤◌, ◌++◌, nat_eq, cond, drop, length, replicate, slice_set, Some, None, ⊤};
ghost use Rattle.rm_layers.specs.Applications.{AreApart};
ghost use Rattle.rm_upper.specs.Kept.{is_among, all_with, all_made};
ghost use Rattle.rm_upper.specs.Shown.{protocols};

use crate::counts::Counts;
use crate::slots::{KeptApplication, Slot, makes, place_of, take};
use std::alloc::AllocError;
use std::marker::Model;

/// The application rows of a network row, each in the slot of its protocol. How many slots there are up to the last that has one is kept
/// beside them, so that as few are written to empty them all.
pub(crate) struct Applications<A: Copy> {
    slots: [Option<KeptApplication<A>>; 32],
    filled: usize,
}

impl<A: Copy> Model for Applications<A> {
    ghost use Rattle.std.specs.Prelude.{◌≡◌, List, Option};
    ghost use Rattle.rm_upper.specs.declared.slots.KeptApplication.{KeptApplication};
    ghost use Rattle.rm_upper.specs.Filled.{filled_in};

    ghost Value = { List (Option (KeptApplication A)) };

    ghost view = { λ s. s.slots };

    ghost invariant = { λ s. s.filled ≡ filled_in s.slots };

    ghost inverse = { λ slots. record { slots = slots; filled = filled_in slots } };
}

impl<A: Copy> Clone for Applications<A> {
    ghost is_clone = { λ x y. y ≡ x };

    ghost is_infallible = { λ _. ⊤ };

    fn clone(&self) -> Result<Applications<A>, AllocError> {
        Ok(*self)
    }
}

impl<A: Copy> Copy for Applications<A> {}

impl<A: Copy> Applications<A> {
    /// None in any slot.
    pub(crate) fn none() -> Applications<A>
        ensures { result ≡ replicate 32 None }
    {
        Applications {
            slots: [None; 32],
            filled: 0,
        }
    }

    /// Takes each away.
    pub(crate) fn empty(&mut self)
        ensures { self.new ≡ replicate 32 None }
    {
        empty_before(&mut self.slots, self.filled);
        self.filled = 0;
    }

    /// What is in each of the 32 slots.
    pub(crate) fn as_slice(&self) -> &[Option<KeptApplication<A>>]
        ensures value { result.now ≡ self.now }
        ensures each { length result.now ≡ 32 }
    {
        &self.slots
    }

    // Puts one into a slot.
    fn put(&mut self, place: usize, kept: KeptApplication<A>)
        requires { place < 32 }
        ensures { self.new ≡ slice_set self.old place (Some kept) }
    {
        self.slots[place] = Some(kept);
        self.filled = self.filled.max(place + 1);
    }
}

// Empties the slots before a place.
fn empty_before<X>(slots: &mut [Option<X>], end: usize)
where
    X: Drop,
    requires { end ≤ length slots.old }
    ensures { slots.new ≡ replicate end None ++ drop end slots.old }
{
    for place in 0..end {
        slots[place] = None;
    }
}

// A contribution comes to the slot of a protocol, if it has one. Tells whether it makes an application row there.
fn take_for<N: Counts>(
    applications: &mut Applications<N::Application>,
    slots: &[Option<Slot>; 32],
    protocol: u32,
    stamp: u64,
    tick: u32,
    gain: &N,
) -> bool
    requires { AreApart (protocols slots.now) }
    ensures applications { applications.new ≡ all_with N.tally (nat_eq protocol) stamp tick gain.now slots.now applications.old }
    ensures made { cond result 1 0 ≡ all_made (nat_eq protocol) slots.now applications.old }
{
    let held = applications.as_slice();
    let Some(place) = place_of(slots, protocol) else {
        return false;
    };
    let Some(slot) = &slots[place] else {
        return false;
    };
    let kept = &held[place];
    let made = makes(slot, kept);
    let taken = take(slot, kept, stamp, tick, gain);
    applications.put(place, taken);
    made
}

/// A contribution comes to the slots of the protocols on its path; no protocol has two. Tells how many application rows it makes.
pub(crate) fn take_all<N: Counts>(
    applications: &mut Applications<N::Application>,
    slots: &[Option<Slot>; 32],
    path: &[u32],
    stamp: u64,
    tick: u32,
    gain: &N,
) -> u32
    requires { AreApart (protocols slots.now) }
    ensures applications { applications.new ≡ all_with N.tally (is_among path.now) stamp tick gain.now slots.now applications.old }
    ensures made { result ≡ all_made (is_among path.now) slots.now applications.old }
    ensures few { result ≤ 32 }
{
    // There are as many places as slots.
    let _held = applications.as_slice();
    let mut made = 0;
    for place in 0..path.len() {
        let protocol = path[place];
        if !path[..place].contains(&protocol) {
            made += u32::from(take_for(applications, slots, protocol, stamp, tick, gain));
        }
    }
    made
}
