// The valid rows of a control table, and those that a Set makes valid.
ghost use Rattle.std.specs.Prelude.{◌≡◌, ℕ, ◌+◌, ◌<◌, ◌≤◌, [], ◌∷◌, length, filter, IsTrue, IfSome, IfNone};
ghost use Rattle.rm_model.specs.ControlTable.{row_index};
ghost use Rattle.rm_model.specs.ControlRows.{is_valid};
ghost use Rattle.rm_model.specs.Reserves.{activates, makes_valid, count_valid, count_valid_after};
ghost use Rattle.rm_status.specs.Rows.{rows_before};

use crate::controls::Controls;
use crate::given::set_ask;
use crate::place::place_under;
use crate::row::Row;
use crate::steps::next_state;
use rm_columns::ControlRow;
use rm_group::Assigns;
use rm_model::{Place, State};
use rm_val::Oid;

impl<C: ControlRow> Controls<C> {
    /// How many rows are valid.
    pub fn count_valid(&self) -> usize
        ensures value { result ≡ count_valid C.form.table (rows_before C.form.table C.form.set_to self.now) }
        ensures few { result ≤ 32 }
    {
        let _ = &self.rows;
        count_of_valid(self.rows.as_slice())
    }

    /// The number, from 1, of the first binding of the status of a row that a Set makes valid and that wasn't. None where the
    /// Set makes no row valid: no more rows are then valid after it than before.
    pub fn first_activated<A: Assigns>(&self, set: &A) -> Option<u32>
        ensures some { IfSome result (λ index. (place : ℕ) × (place < length (A.bindings set.now)) × (index ≡ place + 1)
            × IsTrue (activates C.form.table (rows_before C.form.table C.form.set_to self.now) (A.bindings set.now) place)) }
        ensures none { IfNone result (count_valid_after C.form.table (rows_before C.form.table C.form.set_to self.now) (A.bindings set.now) ≤ count_valid C.form.table (rows_before C.form.table C.form.set_to self.now)) }
    {
        let entry = C::entry();
        for place in 0..set.count() {
            if self.activates(set, &entry, place) {
                return Some(place as u32 + 1);
            }
        }
        None
    }

    // Whether the binding at a place is of the status of a row that a Set makes valid and that wasn't.
    fn activates<A: Assigns>(&self, set: &A, entry: &Oid, place: usize) -> bool
        requires entry { entry.now ≡ C.form.table.entry }
        requires within { place < length (A.bindings set.now) }
        ensures { result ≡ activates C.form.table (rows_before C.form.table C.form.set_to self.now) (A.bindings set.now) place }
    {
        let name = set.name(place);
        match place_under::<C>(&name, entry) {
            Place::Cell(column, row) => {
                column == C::status() && self.makes_valid(set, entry, row)
            }
            _ => false,
        }
    }

    // Whether a Set makes a row valid that wasn't.
    fn makes_valid<A: Assigns>(&self, set: &A, entry: &Oid, row: u32) -> bool
        requires { entry.now ≡ C.form.table.entry }
        ensures { result ≡ makes_valid C.form.table (rows_before C.form.table C.form.set_to self.now) (A.bindings set.now) (row_index C.form.table row) }
    {
        let _ = &self.rows;
        let state = self.state(row);
        let asked = set_ask::<C, A>(set, entry, row);
        is_valid(next_state(asked, state)) && !is_valid(state)
    }
}

// Whether a row of that state is valid.
fn is_valid(state: State) -> bool
    ensures { result ≡ is_valid state }
{
    match state {
        State::Valid => true,
        _ => false,
    }
}

// How many of some rows are valid.
fn count_of_valid<C: ControlRow>(rows: &[Row<C>]) -> usize
    ensures { result ≡ length (filter (λ row. is_valid row.state) rows.now) }
{
    rows.iter().filter(|row| is_valid(row.state)).count()
}
