// Where names stand in a control table.
ghost use Rattle.std.specs.Prelude.{◌≡◌, Some, length, drop};
ghost use Rattle.std.specs.Str.{bytes_eq};
ghost use Rattle.rm_model.specs.Cells.{behind};
ghost use Rattle.rm_model.specs.ControlTable.{row_index};
ghost use Rattle.rm_model.specs.ControlRows.{cell_name};
ghost use Rattle.rm_model.specs.Judgement.{place_behind, place_in};
ghost use Rattle.rm_status.specs.Commit.{is_cell, is_of_row};

use rm_columns::ControlRow;
use rm_model::Place;
use rm_val::Oid;

/// Where a name stands under an entry, by the indexes that the rows of a table can have.
pub fn place_under<C: ControlRow>(name: &Oid, entry: &Oid) -> Place
    ensures { result ≡ place_behind C.form.table (behind entry.now name.now) }
{
    if name.starts_with(entry) {
        place_from::<C>(name, entry.len())
    } else {
        Place::Outside
    }
}

// Where a name stands by its numbers from a place on, which follow the entry.
fn place_from<C: ControlRow>(name: &Oid, from: usize) -> Place
    ensures { result ≡ place_behind C.form.table (Some (drop from name.now)) }
{
    let mut at = from;
    match name.take_int(&mut at) {
        Some(column) => place_in(column, C::number(name, at)),
        None => Place::Entry,
    }
}

// Where a column stands, by the number of the row whose index is behind it, if it is one's.
fn place_in(column: u32, row: Option<u32>) -> Place
    ensures { result ≡ place_in column row }
{
    match row {
        Some(row) => Place::Cell(column, row),
        None => Place::Column(column),
    }
}

/// Whether a name is that of a column of a row. The entry is compared last, since most names of a Set have it.
pub(crate) fn is_cell<C: ControlRow>(name: &Oid, entry: &Oid, column: u32, row: u32) -> bool
    ensures { result ≡ bytes_eq name.now (cell_name entry.now column (row_index C.form.table row)) }
{
    is_at(place_from::<C>(name, entry.len()), column, row) && name.starts_with(entry)
}

/// Whether what a name has in the place of a row's column and index is of that row, whatever comes before. A name of which it isn't
/// is that of no column of the row.
pub(crate) fn may_be_of_row<C: ControlRow>(name: &Oid, entry: &Oid, row: u32) -> bool
    ensures { result ≡ is_of_row row (place_behind C.form.table (Some (drop (length entry.now) name.now))) }
{
    match place_from::<C>(name, entry.len()) {
        Place::Cell(_, number) => number == row,
        _ => false,
    }
}

/// Whether a place is that of a column of a row.
fn is_at(place: Place, column: u32, row: u32) -> bool
    ensures { result ≡ is_cell column row place }
{
    match place {
        Place::Cell(other, number) => number == row && other == column,
        _ => false,
    }
}
