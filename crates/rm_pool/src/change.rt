// A change of the part of each row.
ghost use Rattle.std.specs.Prelude.{◌≡◌, ℕ, length, Some};
ghost use Rattle.rm_pool.specs.Each.{EachBecomes, SlotBecomes, IsAllowed, AreAllowed};
ghost use Rattle.rm_pool.specs.Pools.{Became, Allowed};
ghost use Rattle.rm_pool.specs.Slots.{kept, part_in};

use crate::part::Part;
use crate::pool::Pool;
use crate::slot::Slot;

/// A change that the part of each row undergoes, by the row's number.
pub trait Change<P> {
    /// A part may be changed.
    ghost allows: { Self → ℕ → P → Type 0 };

    /// What becomes of a part.
    ghost makes: { Self → ℕ → P → P → Type 0 };

    /// Changes the part of a row.
    fn change(&self, row: u32, part: &mut P)
        requires { allows self.now row part.old }
        ensures { makes self.now row part.old part.new };
}

impl<P: Part> Pool<P> {
    /// Changes the part of each row. No row gets one or loses its own.
    pub fn change_each<V: Change<P>>(&mut self, how: &V)
        requires { (row : ℕ) → Allowed (V.allows how.now row) (part_in self.old row) }
        ensures parts { (row : ℕ) → Became (V.makes how.now row) (part_in self.old row) (part_in self.new row) }
        ensures size { length self.new ≡ length self.old }
    {
        change_all(&mut self.slots, how);
    }
}

// Changes the part of each row where they are kept.
fn change_all<P: Part, V: Change<P>>(slots: &mut Option<Vec<Slot<P>>>, how: &V)
    requires { AreAllowed (V.allows how.now) (kept slots.old) }
    ensures { EachBecomes (SlotBecomes (V.makes how.now)) (kept slots.old) (kept slots.new) }
{
    if let Some(slots) = slots {
        change_in(slots.as_mut_slice(), how);
    }
}

// Changes the part of each row among some.
fn change_in<P: Part, V: Change<P>>(slots: &mut [Slot<P>], how: &V)
    requires { AreAllowed (V.allows how.now) slots.old }
    ensures { EachBecomes (SlotBecomes (V.makes how.now)) slots.old slots.new }
{
    for slot in slots.iter_mut() {
        change_one(slot, how);
    }
}

// Changes a part, unless it is spare.
fn change_one<P: Part, V: Change<P>>(slot: &mut Slot<P>, how: &V)
    requires { IsAllowed (V.allows how.now) slot.old }
    ensures { SlotBecomes (V.makes how.now) slot.old slot.new }
{
    if let Some(row) = slot.row {
        how.change(row, &mut slot.part);
    }
}
