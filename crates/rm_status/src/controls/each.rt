// A change of every row of a control table.
ghost use Rattle.std.specs.Prelude.{◌≡◌, ℕ, map};
ghost use Rattle.std.specs.Option.{option_map};
ghost use Rattle.rm_status.specs.Rows.{row_in};
ghost use Rattle.rm_status.specs.Change.{changed_row};

use crate::change::Change;
use crate::controls::{Controls, MAX_ROWS};
use crate::row::Row;
use arrayvec::ArrayVec;
use rm_columns::ControlRow;

impl<C: ControlRow> Controls<C> {
    /// Changes the columns of each row. The states stay, and no row comes or goes.
    pub fn change_each<V: Change<C>>(&mut self, how: &V)
        ensures { (i : ℕ) → row_in self.new i ≡ option_map (changed_row (V.changed how.now)) (row_in self.old i) }
    {
        change_all(&mut self.rows, how);
    }
}

// Changes the columns of each of some rows where they are kept.
fn change_all<C: ControlRow, V: Change<C>>(rows: &mut ArrayVec<Row<C>, MAX_ROWS>, how: &V)
    ensures { rows.new.items ≡ map (changed_row (V.changed how.now)) rows.old.items }
{
    change_rows(rows.as_mut_slice(), how);
}

// Changes the columns of each of some rows.
fn change_rows<C: ControlRow, V: Change<C>>(rows: &mut [Row<C>], how: &V)
    ensures { rows.new ≡ map (changed_row (V.changed how.now)) rows.old }
{
    for row in rows.iter_mut() {
        how.change(row.index, row.state, &mut row.columns);
    }
}
