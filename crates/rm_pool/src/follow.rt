// The parts of a pool after a Set.
ghost use Rattle.std.specs.Prelude.{◌^◌, ◌≡◌, ℕ, ◌<◌, ◌≤◌, length, map, None, true, false, nat_eq, if◌then◌else◌};
ghost use Rattle.rm_model.specs.Reserves.{count_valid};
ghost use Rattle.rm_model.specs.Judgement.{count_below};
ghost use Rattle.rm_status.specs.Rows.{rows_before};
ghost use Rattle.rm_pool.specs.Follow.{AreBegun};
ghost use Rattle.rm_pool.specs.Pools.{valid_in, IsOfValid, IsThere};
ghost use Rattle.rm_pool.specs.Slots.{kept, part_in, has_part, released};

use crate::begin::Begin;
use crate::part::Part;
use crate::pool::Pool;
use crate::slot::Slot;
use rm_columns::ControlRow;
use rm_model::State;
use rm_status::Controls;

impl<P: Part> Pool<P> {
    /// Makes the parts spare whose rows aren't valid, and begins one for each valid row that has none. There is storage for all
    /// valid rows.
    pub fn follow<C: ControlRow, B: Begin<P>>(&mut self, rows: &Controls<C>, how: &B)
        requires { count_valid C.form.table (rows_before C.form.table C.form.set_to rows.now) ≤ length self.old }
        ensures of_valid { IsOfValid self.new rows.now }
        ensures stays { (row : ℕ) → valid_in rows.now row ≡ true → has_part self.old row ≡ true → part_in self.new row ≡ part_in self.old row }
        ensures begun { (row : ℕ) → valid_in rows.now row ≡ true → part_in self.old row ≡ None → IsThere (B.begun how.now row) (part_in self.new row) }
        ensures size { length self.new ≡ length self.old }
    {
        prove!(rows.len() <= 32);
        self.release(rows);
        self.begin_each(rows, how);
    }

    /// Makes the parts spare whose rows aren't valid.
    pub fn release<C: ControlRow>(&mut self, rows: &Controls<C>)
        ensures parts { (row : ℕ) → part_in self.new row ≡ (if valid_in rows.now row then part_in self.old row else None) }
        ensures size { length self.new ≡ length self.old }
    {
        release_all(&mut self.slots, rows);
    }

    // Begins a part for each valid row that has none.
    fn begin_each<C: ControlRow, B: Begin<P>>(&mut self, rows: &Controls<C>, how: &B)
        requires used { (row : ℕ) → has_part self.old row ≡ true → valid_in rows.now row ≡ true }
        requires enough { count_below (valid_in rows.now) (2 ^ 32) ≤ length self.old }
        ensures { AreBegun (valid_in rows.now) (B.begun how.now) self.old self.new (2 ^ 32) }
    {
        prove!(rows.len() <= 32);
        let mut last = 0;
        while let Some(index) = rows.after(last) {
            self.begin_of(rows, index, how);
            last = index;
        }
    }

    // Begins the part of a row, where the row is valid and has none.
    fn begin_of<C: ControlRow, B: Begin<P>>(&mut self, rows: &Controls<C>, row: u32, how: &B)
        requires used { (other : ℕ) → has_part self.old other ≡ true → valid_in rows.now other ≡ true }
        requires enough { count_below (valid_in rows.now) (2 ^ 32) ≤ length self.old }
        ensures begun { valid_in rows.now row ≡ true → part_in self.old row ≡ None → IsThere (B.begun how.now row) (part_in self.new row) }
        ensures stays { has_part self.old row ≡ true → part_in self.new row ≡ part_in self.old row }
        ensures idle { valid_in rows.now row ≡ false → part_in self.new row ≡ part_in self.old row }
        ensures others { (other : ℕ) → nat_eq row other ≡ false → part_in self.new other ≡ part_in self.old other }
        ensures size { length self.new ≡ length self.old }
    {
        prove!(rows.len() <= 32);
        if is_valid(rows, row) && !self.has(row) {
            self.begin(row, how);
        }
    }

    // Whether a row has a part.
    fn has(&self, row: u32) -> bool
        ensures { result ≡ has_part self.now row }
    {
        self.get(row).is_some()
    }
}

// Makes the parts spare whose rows aren't valid.
fn release_all<P: Part, C: ControlRow>(slots: &mut Option<Vec<Slot<P>>>, rows: &Controls<C>)
    ensures { kept slots.new ≡ map (released (valid_in rows.now)) (kept slots.old) }
{
    if let Some(slots) = slots {
        release_in(slots.as_mut_slice(), rows);
    }
}

// Makes the parts spare whose rows aren't valid.
fn release_in<P: Part, C: ControlRow>(slots: &mut [Slot<P>], rows: &Controls<C>)
    ensures { slots.new ≡ map (released (valid_in rows.now)) slots.old }
{
    for slot in slots.iter_mut() {
        release_one(slot, rows);
    }
}

// Makes a part spare whose row isn't valid.
fn release_one<P: Part, C: ControlRow>(slot: &mut Slot<P>, rows: &Controls<C>)
    ensures { slot.new ≡ released (valid_in rows.now) slot.old }
{
    if let Some(row) = slot.row {
        if !is_valid(rows, row) {
            slot.row = None;
        }
    }
}

// Whether a row is valid.
fn is_valid<C: ControlRow>(rows: &Controls<C>, row: u32) -> bool
    ensures { result ≡ valid_in rows.now row }
{
    matches!(rows.state(row), State::Valid)
}
