// The rows of a control table.
mod after;
mod cells;
mod commit;
mod each;
mod judge;
mod valid;

ghost use Rattle.std.specs.Prelude.{◌≡◌, ◌^◌, ℕ, ◌<◌, ◌≤◌, ◌+◌, List, [], length, false, Option, Some, None, is_some, IfSome, OnSome, IfNone, IsTrue, position, find, nat_eq, nat_lt, if◌then◌else◌, slice_get};
ghost use Rattle.std.specs.Option.{option_copied};
ghost use Rattle.std.specs.List.{position_or_len};
ghost use Rattle.std.specs.Borrow.{sem};
ghost use Rattle.std.specs.Ordering.{nat_cmp, is_lt};
ghost use Rattle.std.specs.Cmp.Lexicographic.{slice_cmp};
ghost use Rattle.rm_model.specs.ControlTable.{row_index};
ghost use Rattle.rm_model.specs.ControlRows.{is_absent};
ghost use Rattle.rm_model.specs.Judgement.{is_row_number, count_below};
ghost use Rattle.rm_status.specs.declared.row.Row.{Row};
ghost use Rattle.rm_status.specs.Rows.{AreControlRows, IsIndexAfter, row_in, place_in, state_in, columns_in, columns_seen};
ghost use Rattle.rm_status.specs.Lending.{lends_columns, lends_columns_at};

use crate::row::Row;
use arrayvec::ArrayVec;
use rm_columns::ControlRow;
use rm_model::State;
use rm_val::Oid;
use std::marker::Model;

/// For how many rows of a control table there is room.
pub const MAX_ROWS: usize = 32;

/// The rows of a control table, each under the number of its index, in order of these numbers and so of the indexes.
#[derive(Drop)]
pub struct Controls<C: ControlRow> {
    rows: ArrayVec<Row<C>, MAX_ROWS>,
}

impl<C: ControlRow> Model for Controls<C> {
    ghost use Rattle.std.specs.Prelude.{List, ◌≡◌};
    ghost use Rattle.rm_status.specs.declared.row.Row.{Row};
    ghost use Rattle.rm_status.specs.Rows.{AreControlRows};

    ghost Value = { List (Row C) };

    ghost view = { λ s. s.rows.items };

    ghost invariant = { λ s. AreControlRows C.form.table s.rows.items };
}

impl<C: ControlRow> Controls<C> {
    /// A table without rows.
    pub fn new() -> Controls<C>
        ensures { result ≡ [] }
    {
        Controls {
            rows: ArrayVec::new(),
        }
    }

    /// How many rows there are, for which there is room.
    pub fn len(&self) -> usize
        ensures value { result ≡ length self.now }
        ensures most { result ≤ 32 }
        ensures rows { AreControlRows C.form.table self.now }
        ensures counted { result ≡ count_below (λ row. is_some (row_in self.now row)) (2 ^ 32) }
    {
        self.rows.len()
    }

    /// The columns of a row. None where there is no such row.
    pub fn get(&self, index: u32) -> Option<&C>
        ensures { option_copied result ≡ columns_in self.now index }
    {
        match self.find(index) {
            None => None,
            Some(row) => Some(&row.columns),
        }
    }

    /// A row, which has a number that a row can have. None where there is no such row.
    pub fn row(&self, index: u32) -> Option<&Row<C>>
        ensures value { option_copied result ≡ row_in self.now index }
        ensures index { OnSome result (IsTrue (is_row_number C.form.table index)) }
    {
        prove!(self.len() <= MAX_ROWS);
        self.find(index)
    }

    /// The state of a row, absent where there is no such row.
    pub fn state(&self, index: u32) -> State
        ensures { result ≡ state_in self.now index }
    {
        match self.find(index) {
            None => State::Absent,
            Some(row) => row.state,
        }
    }

    /// Lends the columns of a row for writing. Its state and all other rows stay. None where there is no such row.
    pub fn get_mut(&mut self, index: u32) -> Option<&mut C>
        ensures* writes_back { sem 𝓛 (lends_columns C.row C.Keys.row C.ControlRow.own C.Keys.RowKeys self.entry index result) }
        ensures value { IfSome result (λ c. columns_in self.old index ≡ Some c.now) }
        ensures none { IfNone result (columns_in self.old index ≡ None) }
    {
        let place = self.place(index);
        columns_at(&mut self.rows, place)
    }

    /// The least number of a row above that one. None where there is no row above.
    pub fn after(&self, index: u32) -> Option<u32>
        ensures least { IsIndexAfter self.now index result }
        ensures rows { AreControlRows C.form.table self.now }
    {
        let _ = &self.rows;
        match self.first_above(index) {
            None => None,
            Some(row) => Some(row.index),
        }
    }

    /// Puts in a row that there isn't yet, as one that a table has from the beginning.
    pub fn insert(&mut self, index: u32, state: State, columns: C)
        requires index { IsTrue (is_row_number C.form.table index) }
        requires there { is_absent state ≡ false }
        requires absent { row_in self.old index ≡ None }
        requires room { length self.old < C.form.table.most }
        ensures rows { let x : Row C = record { index = index; state = state; columns = columns } in (i : ℕ) → row_in self.new i ≡ (if nat_eq index i then Some x else row_in self.old i) }
        ensures one_more { length self.new ≡ length self.old + 1 }
    {
        prove!(C::most() <= MAX_ROWS);
        let place = self.place_above(index);
        let row = Row {
            index,
            state,
            columns,
        };
        self.rows.insert(place, row);
    }

    /// Takes a row away, and leaves all others. Nothing changes where there is no such row.
    pub fn remove(&mut self, index: u32)
        ensures { (i : ℕ) → row_in self.new i ≡ (if nat_eq index i then None else row_in self.old i) }
    {
        let place = self.place(index);
        if place < self.rows.len() {
            self.rows.remove(place);
        }
    }

    // The row with an index.
    fn find(&self, index: u32) -> Option<&Row<C>>
        ensures { option_copied result ≡ row_in self.now index }
    {
        self.rows.as_slice().iter().find(|row| row.index == index)
    }

    // Where the row with an index stands, and else the number of rows.
    fn place(&self, index: u32) -> usize
        ensures { result ≡ place_in self.now index }
    {
        match self.position(index) {
            Some(place) => place,
            None => self.rows.len(),
        }
    }

    fn position(&self, index: u32) -> Option<usize>
        ensures { result ≡ position (λ r. nat_eq r.index index) self.now }
    {
        self.rows
            .as_slice()
            .iter()
            .position(|row| row.index == index)
    }

    /// The first row whose index is above some numbers.
    pub(crate) fn first_behind(&self, index: &Oid) -> Option<&Row<C>>
        ensures value { option_copied result ≡ find (λ r. is_lt (slice_cmp nat_cmp index.now (row_index C.form.table r.index))) self.now }
        ensures rows { AreControlRows C.form.table self.now }
    {
        let _ = &self.rows;
        self.rows
            .as_slice()
            .iter()
            .find(|row| is_behind(row, index))
    }

    // The first row above an index.
    fn first_above(&self, index: u32) -> Option<&Row<C>>
        ensures { option_copied result ≡ find (λ r. nat_lt index r.index) self.now }
    {
        self.rows.as_slice().iter().find(|row| index < row.index)
    }

    // Where the rows above an index begin.
    fn place_above(&self, index: u32) -> usize
        ensures { result ≡ position_or_len (λ r. nat_lt index r.index) self.now }
    {
        match self.position_above(index) {
            Some(place) => place,
            None => self.rows.len(),
        }
    }

    fn position_above(&self, index: u32) -> Option<usize>
        ensures { result ≡ position (λ r. nat_lt index r.index) self.now }
    {
        self.rows
            .as_slice()
            .iter()
            .position(|row| index < row.index)
    }
}

// Whether the index of a row is above some numbers.
fn is_behind<C: ControlRow>(row: &Row<C>, index: &Oid) -> bool
    ensures { result ≡ is_lt (slice_cmp nat_cmp index.now (row_index C.form.table row.now.index)) }
{
    index.compare(&C::index(row.index)).is_lt()
}

// Lends the columns of the row at a place.
fn columns_at<C, const N: usize, A>(
    rows: &mut ArrayVec<Row<C>, N, A>,
    place: usize,
) -> Option<&mut C>
    ensures* writes_back { sem 𝓛 (lends_columns_at C.row N.row A.row rows.entry place result) }
    ensures value { IfSome result (λ c. columns_seen (slice_get rows.old.items place) ≡ Some c.now) }
    ensures none { IfNone result (length rows.old.items ≤ place) }
{
    match rows.get_mut(place) {
        None => None,
        Some(row) => Some(&mut row.columns),
    }
}
