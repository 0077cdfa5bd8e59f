// How a Set is judged on the rows of a control table.
ghost use Rattle.std.specs.Prelude.{◌≡◌, ◌<◌, ◌≤◌, [], ◌∷◌, ◌&&◌, nat_eq, length};
ghost use Rattle.std.specs.Option.{option_or};
ghost use Rattle.rm_model.specs.Journal.{value_given};
ghost use Rattle.rm_model.specs.ControlTable.{row_index, is_ready};
ghost use Rattle.rm_model.specs.ControlRows.{cell_name};
ghost use Rattle.rm_model.specs.Judgement.{IsFirstFault, first_pass, second_pass, name_at, place_of, is_again, is_crowded, is_ready_with, of_columns};
ghost use Rattle.rm_status.specs.Rows.{AreControlRows, rows_before, state_in};
ghost use Rattle.rm_status.specs.Commit.{made_by, count_made};

use crate::controls::{Controls, MAX_ROWS};
use crate::given::{self, is_again, put_all, row_fault, set_ask};
use crate::place::place_under;
use crate::steps::is_made;
use rm_columns::{ControlRow, is_ready};
use rm_group::{Assigns, wrong_at};
use rm_model::{Place, Verdict};
use rm_val::{ErrorStatus, Oid};

impl<C: ControlRow> Controls<C> {
    /// The first pass of a Set: each binding under the table's entry alone (RFC 1905, section 4.2.5).
    pub fn judge_alone<A: Assigns>(&self, set: &A) -> Verdict
        ensures { IsFirstFault (length (A.bindings set.now)) (first_pass C.form.table (A.bindings set.now)) result }
    {
        given::judge_alone::<C, A>(set, &C::entry())
    }

    /// The second pass of a Set of which the first found nothing wrong: the bindings of each row together, by what the rows
    /// are now.
    pub fn judge_rows<A: Assigns>(&self, set: &A) -> Verdict
        requires { IsFirstFault (length (A.bindings set.now)) (first_pass C.form.table (A.bindings set.now)) Verdict.Fine }
        ensures verdict { let bindings = A.bindings set.now in IsFirstFault (length bindings) (second_pass C.form.table (rows_before C.form.table C.form.set_to self.now) bindings) result }
        ensures rows { AreControlRows C.form.table self.now }
    {
        let _ = &self.rows;
        let entry = C::entry();
        let crowded = self.is_crowded(set, &entry);
        let count = set.count();
        for place in 0..count {
            match self.second_fault(set, &entry, crowded, place) {
                None => {}
                Some(fault) => return wrong_at(place, fault),
            }
        }
        Verdict::Fine
    }

    // Whether the rows that there are and those that a Set makes are more together than the table has at most.
    fn is_crowded<A: Assigns>(&self, set: &A, entry: &Oid) -> bool
        requires entry { entry.now ≡ C.form.table.entry }
        requires fine { IsFirstFault (length (A.bindings set.now)) (first_pass C.form.table (A.bindings set.now)) Verdict.Fine }
        ensures { result ≡ is_crowded C.form.table (rows_before C.form.table C.form.set_to self.now) (A.bindings set.now) }
    {
        self.rows.len() + self.count_made(set, entry) > C::most()
    }

    // How many rows a Set makes.
    fn count_made<A: Assigns>(&self, set: &A, entry: &Oid) -> usize
        requires { entry.now ≡ C.form.table.entry }
        ensures value { result ≡ count_made C.form.table (state_in self.now) (A.bindings set.now) (length (A.bindings set.now)) }
        ensures few { result ≤ 128 }
    {
        let count = set.count();
        let mut made = 0;
        for place in 0..count {
            made += self.made_by(set, entry, place);
        }
        made
    }

    // How many rows the binding at a place makes, one or none.
    fn made_by<A: Assigns>(&self, set: &A, entry: &Oid, place: usize) -> usize
        requires entry { entry.now ≡ C.form.table.entry }
        requires within { place < length (A.bindings set.now) }
        ensures value { let bindings = A.bindings set.now in result ≡ made_by C.form.table (state_in self.now) bindings (is_again bindings place) (place_of C.form.table (name_at bindings place)) }
        ensures few { result ≤ 1 }
    {
        let name = set.name(place);
        match place_under::<C>(&name, entry) {
            Place::Cell(column, row) if column == C::status() => {
                let asked = set_ask::<C, A>(set, entry, row);
                let again = is_again(set, place);
                if !again && is_made(self.state(row), asked) {
                    1
                } else {
                    0
                }
            }
            _ => 0,
        }
    }

    // What is wrong with the binding at a place together with the others of its row.
    fn second_fault<A: Assigns>(
        &self,
        set: &A,
        entry: &Oid,
        crowded: bool,
        place: usize,
    ) -> Option<ErrorStatus>
        requires entry { entry.now ≡ C.form.table.entry }
        requires fine { IsFirstFault (length (A.bindings set.now)) (first_pass C.form.table (A.bindings set.now)) Verdict.Fine }
        requires within { place < length (A.bindings set.now) }
        requires crowded { crowded ≡ is_crowded C.form.table (rows_before C.form.table C.form.set_to self.now) (A.bindings set.now) }
        ensures { result ≡ second_pass C.form.table (rows_before C.form.table C.form.set_to self.now) (A.bindings set.now) place }
    {
        let name = set.name(place);
        match place_under::<C>(&name, entry) {
            Place::Cell(column, row) => {
                let state = self.state(row);
                let asked = set_ask::<C, A>(set, entry, row);
                let ready = self.is_ready_for(set, entry, column, row);
                let again = is_again(set, place);
                row_fault::<C>(row, state, asked, ready, crowded, again, column)
            }
            _ => None,
        }
    }

    // Whether a binding is of a row's status, which alone asks whether the row is ready, and the row would be.
    fn is_ready_for<A: Assigns>(&self, set: &A, entry: &Oid, column: u32, row: u32) -> bool
        requires entry { entry.now ≡ C.form.table.entry }
        requires fine { IsFirstFault (length (A.bindings set.now)) (first_pass C.form.table (A.bindings set.now)) Verdict.Fine }
        ensures { result ≡ (nat_eq column C.form.table.status && is_ready_with C.form.table (rows_before C.form.table C.form.set_to self.now) (A.bindings set.now) (row_index C.form.table row)) }
    {
        column == C::status() && self.is_ready_with(set, entry, row)
    }

    // Whether a row would be ready with the columns that a Set gives to it, a blank one where there is no such row.
    fn is_ready_with<A: Assigns>(&self, set: &A, entry: &Oid, row: u32) -> bool
        requires entry { entry.now ≡ C.form.table.entry }
        requires fine { IsFirstFault (length (A.bindings set.now)) (first_pass C.form.table (A.bindings set.now)) Verdict.Fine }
        ensures { result ≡ is_ready_with C.form.table (rows_before C.form.table C.form.set_to self.now) (A.bindings set.now) (row_index C.form.table row) }
    {
        prove!(self.len() <= MAX_ROWS);
        match self.row(row) {
            None => is_ready_after::<C, A>(C::blank(row), set, entry, row),
            Some(found) => { is_ready_after::<C, A>(found.columns.bare(), set, entry, row) }
        }
    }
}

// Whether columns are ready once the bindings of a row are in them.
fn is_ready_after<C: ControlRow, A: Assigns>(columns: C, set: &A, entry: &Oid, row: u32) -> bool
    requires entry { entry.now ≡ C.form.table.entry }
    requires fine { IsFirstFault (length (A.bindings set.now)) (first_pass C.form.table (A.bindings set.now)) Verdict.Fine }
    ensures { result ≡ is_ready C.form.table (of_columns C.form.table (λ column. option_or (value_given (A.bindings set.now) (cell_name C.form.table.entry column (row_index C.form.table row))) (C.form.set_to columns column))) }
{
    let mut with = columns;
    put_all::<C, A>(&mut with, set, entry, row);
    is_ready(&with)
}
