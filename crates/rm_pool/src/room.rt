// The storage that a Set needs.
ghost use Rattle.std.specs.Prelude.{◌≡◌, ℕ, OnOk, OnErr, IfErr};
ghost use Rattle.rm_model.specs.Reserves.{Reserves, count_valid_after};
ghost use Rattle.rm_status.specs.Fine.{AreFine};
ghost use Rattle.rm_status.specs.Rows.{rows_before};
ghost use Rattle.rm_pool.specs.Pools.{IsOfValid};
ghost use Rattle.rm_pool.specs.Room.{IsStocked, IsReleased, HasRoom};
ghost use Rattle.rm_pool.specs.Slots.{part_in};

use crate::part::Part;
use crate::pool::Pool;
use rm_columns::ControlRow;
use rm_group::{Assigns, Denied};
use rm_status::Controls;
use rm_val::NoMemory;
use std::alloc::Global;

impl<P: Part> Pool<P> {
    /// Takes the storage of each row that is valid after a Set with which both passes found nothing wrong. There was that of one row
    /// at least. Denied where there is no memory for a row that the Set makes valid beside another; no storage is then spare but for
    /// that of one row. The rows keep their parts.
    pub fn make_room<C: ControlRow, A: Assigns>(
        &mut self,
        alloc: Global,
        rows: &Controls<C>,
        set: &A,
    ) -> Result<(), Denied>
        requires fine { AreFine C.form rows.now (A.bindings set.now) }
        requires of_valid { IsOfValid self.old rows.now }
        requires stocked { IsStocked self.old }
        ensures parts { (row : ℕ) → part_in self.new row ≡ part_in self.old row }
        ensures stocked { IsStocked self.new }
        ensures ready { OnOk result (HasRoom C.form rows.now self.new (A.bindings set.now)) }
        ensures released { OnErr result (IsReleased C.form rows.now self.new) }
        ensures denied { IfErr result (λ denied. Reserves C.form.table (rows_before C.form.table C.form.set_to rows.now) (A.bindings set.now) denied.index) }
    {
        prove!(self.len() >= 1);
        let Some(index) = rows.first_activated(set) else {
            return Ok(());
        };
        let count = count_after(rows, set);
        match self.grow(alloc, count) {
            Ok(()) => Ok(()),
            Err(NoMemory) => {
                self.give_back(rows);
                Err(Denied { index })
            }
        }
    }

    /// Gives storage back that no valid row needs, but for that of one row. The rows keep their parts.
    pub fn give_back<C: ControlRow>(&mut self, rows: &Controls<C>)
        requires { IsOfValid self.old rows.now }
        ensures parts { (row : ℕ) → part_in self.new row ≡ part_in self.old row }
        ensures stocked { IsStocked self.old → IsStocked self.new }
        ensures released { IsReleased C.form rows.now self.new }
    {
        let count = rows.count_valid();
        self.trim(count.max(1));
    }
}

// How many rows are valid after a Set with which nothing is wrong.
fn count_after<C: ControlRow, A: Assigns>(rows: &Controls<C>, set: &A) -> usize
    requires { AreFine C.form rows.now (A.bindings set.now) }
    ensures { result ≡ count_valid_after C.form.table (rows_before C.form.table C.form.set_to rows.now) (A.bindings set.now) }
{
    let after = rows.rows_after(set);
    after.count_valid()
}
