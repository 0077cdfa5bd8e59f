// The parts of rows that begin.
ghost use Rattle.std.specs.Prelude.{◌^◌, ◌≡◌, ℕ, ◌<◌, length, Some, None, false, nat_eq};
ghost use Rattle.rm_pool.specs.Pools.{in_use, IsThere};
ghost use Rattle.rm_pool.specs.Slots.{AreApart, part_in};

use crate::part::Part;
use crate::pool::Pool;
use crate::slot::Slot;
use crate::storage::first_spare;

/// How the part of a row begins, by what else it depends on: the columns of the row, or the moment.
pub trait Begin<P> {
    /// A part is one that a row has just begun.
    ghost begun: { Self → ℕ → P → Type 0 };

    /// Begins the part of a row in one that is spare.
    fn begin(&self, row: u32, part: &mut P)
        ensures { begun self.now row part.new };
}

impl<P: Part> Pool<P> {
    /// Gives a row that has none a part that is spare, and begins it.
    pub fn begin<B: Begin<P>>(&mut self, row: u32, how: &B)
        requires fits { row < 2 ^ 32 }
        requires none { part_in self.old row ≡ None }
        requires spare { in_use self.old < length self.old }
        ensures begun { IsThere (B.begun how.now row) (part_in self.new row) }
        ensures others { (other : ℕ) → nat_eq row other ≡ false → part_in self.new other ≡ part_in self.old other }
        ensures size { length self.new ≡ length self.old }
    {
        if let Some(slots) = &mut self.slots {
            begin_in(slots, row, how);
        }
    }
}

// Begins the part of a row in the first spare one.
fn begin_in<P: Part, B: Begin<P>>(slots: &mut Vec<Slot<P>>, row: u32, how: &B)
    requires apart { AreApart slots.old.items }
    requires fits { row < 2 ^ 32 }
    requires none { part_in slots.old.items row ≡ None }
    requires spare { in_use slots.old.items < length slots.old.items }
    ensures begun { IsThere (B.begun how.now row) (part_in slots.new.items row) }
    ensures others { (other : ℕ) → nat_eq row other ≡ false → part_in slots.new.items other ≡ part_in slots.old.items other }
    ensures size { length slots.new.items ≡ length slots.old.items }
    ensures apart { AreApart slots.new.items }
{
    if let Some(place) = first_spare(slots.as_slice()) {
        begin_one(&mut slots[place], row, how);
    }
}

// Makes a part that of a row, and begins it.
fn begin_one<P: Part, B: Begin<P>>(slot: &mut Slot<P>, row: u32, how: &B)
    ensures row { slot.new.row ≡ Some row }
    ensures begun { B.begun how.now row slot.new.part }
{
    how.begin(row, &mut slot.part);
    slot.row = Some(row);
}
