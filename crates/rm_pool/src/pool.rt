// A pool of storage.
ghost use Rattle.std.specs.Prelude.{◌≡◌, ℕ, None, Some, IfSome, IfNone, find, length, ◌≤◌, [], slice_get, position};
ghost use Rattle.std.specs.Option.{option_copied};
ghost use Rattle.std.specs.List.{position_or_len};
ghost use Rattle.std.specs.Borrow.{sem};
ghost use Rattle.rm_pool.specs.Pools.{in_use};
ghost use Rattle.rm_pool.specs.Slots.{kept, part_in, part_seen, is_of};
ghost use Rattle.rm_pool.specs.Lending.{lends_part, lends_part_at, lends_kept_at};

use crate::part::Part;
use crate::slot::Slot;
use std::marker::Model;

/// The parts of storage of the rows of a control table, and spare parts among them.
#[derive(Drop)]
pub struct Pool<P> {
    // None until storage was taken for the first time.
    pub(crate) slots: Option<Vec<Slot<P>>>,
}

impl<P> Model for Pool<P> {
    ghost use Rattle.std.specs.Prelude.{List};
    ghost use Rattle.rm_pool.specs.declared.slot.Slot.{Slot};
    ghost use Rattle.rm_pool.specs.Slots.{kept, AreApart};

    ghost Value = { List (Slot P) };

    ghost view = { λ s. kept s.slots };

    ghost invariant = { λ s. AreApart (kept s.slots) };
}

impl<P: Part> Pool<P> {
    /// No part.
    pub fn new() -> Pool<P>
        ensures size { length result ≡ 0 }
        ensures none { (row : ℕ) → part_in result row ≡ None }
    {
        Pool { slots: None }
    }

    /// How many parts there are, the spare ones included.
    pub fn len(&self) -> usize
        ensures value { result ≡ length self.now }
        ensures used { in_use self.now ≤ length self.now }
    {
        let _ = &self.slots;
        self.all().len()
    }

    /// The part of a row. None where it has none.
    pub fn get(&self, row: u32) -> Option<&P>
        ensures { option_copied result ≡ part_in self.now row }
    {
        part_of(self.all(), row)
    }

    /// Lends the part of a row for writing. All other parts stay. None where the row has none.
    pub fn get_mut(&mut self, row: u32) -> Option<&mut P>
        ensures* writes_back { sem 𝓛 (lends_part P.row self.entry row result) }
        ensures value { IfSome result (λ part. part_in self.old row ≡ Some part.now) }
        ensures none { IfNone result (part_in self.old row ≡ None) }
    {
        let place = self.place(row);
        kept_at(&mut self.slots, place)
    }

    // Where the part of a row stands, and else how many parts there are.
    fn place(&self, row: u32) -> usize
        ensures { result ≡ position_or_len (is_of row) self.now }
    {
        place_of(self.all(), row)
    }

    /// All parts, the spare ones included.
    pub(crate) fn all(&self) -> &[Slot<P>]
        ensures { result.now ≡ self.now }
    {
        match &self.slots {
            Some(slots) => slots.as_slice(),
            None => &[],
        }
    }
}

// Lends the part at a place for writing.
fn kept_at<P>(slots: &mut Option<Vec<Slot<P>>>, place: usize) -> Option<&mut P>
    ensures* writes_back { sem 𝓛 (lends_kept_at P.row slots.entry place result) }
    ensures value { IfSome result (λ part. part_seen (slice_get (kept slots.old) place) ≡ Some part.now) }
    ensures none { IfNone result (length (kept slots.old) ≤ place) }
{
    let slots = slots.as_mut()?;
    part_at(slots, place)
}

// Lends the part at a place for writing.
fn part_at<P>(slots: &mut Vec<Slot<P>>, place: usize) -> Option<&mut P>
    ensures* writes_back { sem 𝓛 (lends_part_at P.row slots.entry place result) }
    ensures value { IfSome result (λ part. part_seen (slice_get slots.old.items place) ≡ Some part.now) }
    ensures none { IfNone result (length slots.old.items ≤ place) }
{
    match slots.get_mut(place) {
        None => None,
        Some(slot) => Some(&mut slot.part),
    }
}

// The place of the part of a row among some, and else their number.
fn place_of<P>(slots: &[Slot<P>], row: u32) -> usize
    ensures { result ≡ position_or_len (is_of row) slots.now }
{
    match position(slots, row) {
        Some(place) => place,
        None => slots.len(),
    }
}

fn position<P>(slots: &[Slot<P>], row: u32) -> Option<usize>
    ensures { result ≡ position (is_of row) slots.now }
{
    slots.iter().position(|slot| is_of(slot, row))
}

// The part of a row among some.
fn part_of<P>(slots: &[Slot<P>], row: u32) -> Option<&P>
    ensures { option_copied result ≡ part_in slots.now row }
{
    match find(slots, row) {
        Some(slot) => Some(&slot.part),
        None => None,
    }
}

// The slot of a row among some.
fn find<P>(slots: &[Slot<P>], row: u32) -> Option<&Slot<P>>
    ensures { option_copied result ≡ find (is_of row) slots.now }
{
    slots.iter().find(|slot| is_of(slot, row))
}

// Whether a slot is of a row.
fn is_of<P>(slot: &Slot<P>, row: u32) -> bool
    ensures { result ≡ is_of row slot.now }
{
    match slot.row {
        Some(holder) => holder == row,
        None => false,
    }
}
