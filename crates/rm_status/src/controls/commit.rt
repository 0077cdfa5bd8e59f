// What a Set makes of the rows of a control table.
ghost use Rattle.std.specs.Prelude.{◌≡◌, ℕ, ◌<◌, ◌+◌, length, map, true, None, if◌then◌else◌};
ghost use Rattle.std.specs.List.{filter_map};
ghost use Rattle.std.specs.Option.{option_or};
ghost use Rattle.rm_model.specs.ControlTable.{row_index};
ghost use Rattle.rm_model.specs.ControlRows.{set_ask};
ghost use Rattle.rm_model.specs.Judgement.{IsFirstFault, first_pass, name_at, place_of, is_made};
ghost use Rattle.rm_status.specs.Rows.{row_in, with_state_at};
ghost use Rattle.rm_status.specs.Commit.{is_cell, row_after, made_row, made_now, write_row, settle_row};
ghost use Rattle.rm_status.specs.Fine.{AreFine};

use crate::controls::{Controls, MAX_ROWS};
use crate::given::{put_all, set_ask};
use crate::place::place_under;
use crate::row::Row;
use crate::steps::{is_made, next_state};
use arrayvec::ArrayVec;
use rm_columns::ControlRow;
use rm_group::Assigns;
use rm_model::{Place, State, Verdict};
use rm_val::Oid;

impl<C: ControlRow> Controls<C> {
    /// Acts on the bindings of a Set with which both passes found nothing wrong.
    pub fn commit<A: Assigns>(&mut self, set: &A)
        requires { AreFine C.form self.old (A.bindings set.now) }
        ensures { let bindings = A.bindings set.now in (i : ℕ) → row_in self.new i ≡ row_after C.form.table C.form.with_column C.form.blank bindings i (row_in self.old i) }
    {
        let _ = &self.rows;
        let entry = C::entry();
        let count = set.count();
        for place in 0..count {
            self.make_at(set, &entry, place);
        }
        write_all::<C, A>(&mut self.rows, set, &entry);
        settle_rows::<C, A>(&mut self.rows, set, &entry);
    }

    // Makes the row of the binding at a place, where that is a status by which the Set makes a row that there isn't yet.
    fn make_at<A: Assigns>(&mut self, set: &A, entry: &Oid, place: usize)
        requires entry { entry.now ≡ C.form.table.entry }
        requires within { place < length (A.bindings set.now) }
        requires fine { first_pass C.form.table (A.bindings set.now) place ≡ None }
        requires room { let bindings = A.bindings set.now in (i : ℕ) → is_cell C.form.table.status i (place_of C.form.table (name_at bindings place)) ≡ true → is_made State.Absent (set_ask C.form.table bindings (row_index C.form.table i)) ≡ true → row_in self.old i ≡ None → length self.old < C.form.table.most }
        ensures rows { let bindings = A.bindings set.now in (i : ℕ) → row_in self.new i ≡ option_or (row_in self.old i) (if is_cell C.form.table.status i (place_of C.form.table (name_at bindings place)) then made_row C.form.table C.form.with_column C.form.blank bindings i else None) }
        ensures few { let bindings = A.bindings set.now in length self.new ≡ length self.old + made_now C.form.table C.form.with_column C.form.blank self.old bindings (place_of C.form.table (name_at bindings place)) }
    {
        let name = set.name(place);
        match place_under::<C>(&name, entry) {
            Place::Cell(column, row) if column == C::status() => {
                let asked = set_ask::<C, A>(set, entry, row);
                if is_made(State::Absent, asked) && self.find(row).is_none() {
                    self.insert(row, next_state(asked, State::Absent), C::blank(row));
                }
            }
            _ => {}
        }
    }
}

// Puts the bindings of a Set into the columns of each row.
fn write_rows<C: ControlRow, A: Assigns>(rows: &mut [Row<C>], set: &A, entry: &Oid)
    requires entry { entry.now ≡ C.form.table.entry }
    requires fine { IsFirstFault (length (A.bindings set.now)) (first_pass C.form.table (A.bindings set.now)) Verdict.Fine }
    ensures { rows.new ≡ map (write_row C.form.table C.form.with_column C.form.blank (A.bindings set.now)) rows.old }
{
    for row in rows.iter_mut() {
        put_all::<C, A>(&mut row.columns, set, entry, row.index);
    }
}

// The same for rows where they are kept.
fn write_all<C: ControlRow, A: Assigns>(rows: &mut ArrayVec<Row<C>, MAX_ROWS>, set: &A, entry: &Oid)
    requires entry { entry.now ≡ C.form.table.entry }
    requires fine { IsFirstFault (length (A.bindings set.now)) (first_pass C.form.table (A.bindings set.now)) Verdict.Fine }
    ensures { rows.new.items ≡ map (write_row C.form.table C.form.with_column C.form.blank (A.bindings set.now)) rows.old.items }
{
    write_rows::<C, A>(rows.as_mut_slice(), set, entry);
}

// Takes each row to its state after a Set.
fn settle_rows<C: ControlRow, A: Assigns>(
    rows: &mut ArrayVec<Row<C>, MAX_ROWS>,
    set: &A,
    entry: &Oid,
)
    requires { entry.now ≡ C.form.table.entry }
    ensures { rows.new.items ≡ filter_map (settle_row C.form.table C.form.with_column C.form.blank (A.bindings set.now)) rows.old.items }
{
    let mut place = rows.len();
    while place > 0 {
        place -= 1;
        let row = &rows.as_slice()[place];
        let asked = set_ask::<C, A>(set, entry, row.index);
        let next = next_state(asked, row.state);
        match next {
            State::Absent => {
                rows.remove(place);
            }
            _ => set_state(rows, place, next),
        }
    }
}

// Sets the state of the row at a place.
fn set_state<C: ControlRow>(rows: &mut ArrayVec<Row<C>, MAX_ROWS>, place: usize, state: State)
    requires { place < length rows.old.items }
    ensures { rows.new.items ≡ with_state_at rows.old.items place state }
{
    if let Some(row) = rows.get_mut(place) {
        row.state = state;
    }
}
