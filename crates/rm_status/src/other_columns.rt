// What the columns of a control table show that can't be set.
ghost use Rattle.std.specs.Prelude.{◌≡◌, ℕ, List, Some};
ghost use Rattle.rm_val.specs.Val.{Val, val_of};
ghost use Rattle.rm_val.specs.Spellable.{HasSpelling};
ghost use Rattle.rm_model.specs.ControlTable.{row_index};
ghost use Rattle.rm_status.specs.declared.row.Row.{Row};
ghost use Rattle.rm_status.specs.Rows.{row_in};

use crate::row::Row;
use rm_columns::ControlRow;
use rm_val::Value;

/// What the columns of a control table show that can't be set, the index left out.
pub trait OtherColumns<R: ControlRow> {
    /// What such a column shows, by the rows of the table, the number of the column and the index of a row.
    ghost others: { Self → List (Row R) → ℕ → List ℕ → Val };

    /// What such a column of a row shows, by the row's number.
    fn other(&self, index: u32, row: &Row<R>, column: u32) -> Value<'static>
        ensures value { (rows : List (Row R)) → row_in rows index ≡ Some row.now → val_of result ≡ others self.now rows column (row_index R.form.table index) }
        ensures spelling { HasSpelling (val_of result) };
}
