// The cells of a control table.
ghost use Rattle.std.specs.Prelude.{◌≡◌, ◌<◌, ◌^◌, length, get_or, IsTrue, Some, IfSome, OnSome, IfNone};
ghost use Rattle.std.specs.Option.{option_map};
ghost use Rattle.rm_val.specs.Val.{val_of};
ghost use Rattle.rm_val.specs.Spellable.{IsSpellable, HasSpelling};
ghost use Rattle.rm_model.specs.Cells.{cells_of, cell_at, IsNext};
ghost use Rattle.rm_model.specs.ControlRows.{index_value};
ghost use Rattle.rm_model.specs.Judgement.{is_row_number};
ghost use Rattle.rm_status.specs.Rows.{AreControlRows, row_in};
ghost use Rattle.rm_status.specs.RowsShown.{AreSpelled, with_index, rows_shown};

use crate::controls::Controls;
use crate::other_columns::OtherColumns;
use crate::row::Row;
use rm_columns::ControlRow;
use rm_group::{instance_of, next_name};
use rm_model::Instance;
use rm_val::{Oid, Value};

// The number of the column that shows the index of a row, or the first number of that.
const INDEX: u32 = 1;

impl<R: ControlRow> Controls<R> {
    /// The value of the cell with that name, with what `others` shows for the columns that can't be set. None where the table has no
    /// such cell.
    pub fn cell<O: OtherColumns<R>>(&self, others: &O, name: &Oid) -> Option<Value<'_>>
        requires { AreSpelled R.spelled self.now }
        ensures value { option_map val_of result ≡ cells_of (rows_shown R.form (O.others others.now self.now) self.now) name.now }
        ensures spelling { IfSome result (λ value. HasSpelling (val_of value)) }
        ensures rows { AreControlRows R.form.table self.now }
    {
        let _ = &self.rows;
        let at = instance_of(name, &R::entry(), R::table().objects.columns)?;
        self.cell_at(others, &at)
    }

    /// The value of the cell with the least name above that one (RFC 1905, section 4.2.2). Its name is put into `out`. None where no
    /// cell of the table has a greater name; `out` is then as before.
    pub fn next_cell<O: OtherColumns<R>>(
        &self,
        others: &O,
        name: &Oid,
        out: &mut Oid,
    ) -> Option<Value<'_>>
        requires { AreSpelled R.spelled self.now }
        ensures next { IsNext (cells_of (rows_shown R.form (O.others others.now self.now) self.now)) name.now (option_map val_of result) out.new }
        ensures stays { IfNone result (out.new ≡ out.old) }
        ensures name_spelling { OnSome result (IsSpellable out.new) }
        ensures spelling { IfSome result (λ value. HasSpelling (val_of value)) }
        ensures rows { AreControlRows R.form.table self.now }
    {
        let _ = &self.rows;
        *out = next_name(self, &R::entry(), R::table().objects.columns, name, 0)?;
        self.cell(others, out)
    }

    // The value at an instance, if there is such a row.
    fn cell_at<O: OtherColumns<R>>(&self, others: &O, at: &Instance) -> Option<Value<'_>>
        requires { AreSpelled R.spelled self.now }
        ensures value { option_map val_of result ≡ cell_at (rows_shown R.form (O.others others.now self.now) self.now) (Some at.now) }
        ensures spelling { IfSome result (λ value. HasSpelling (val_of value)) }
    {
        let number = R::number(&at.index, 0)?;
        let row = self.row(number)?;
        let other = self.other_at(others, at, number, row);
        Some(row.cell(at.column, other))
    }

    // What the column of an instance shows that can't be set. The instance is that of a row.
    fn other_at<O: OtherColumns<R>>(
        &self,
        others: &O,
        at: &Instance,
        number: u32,
        row: &Row<R>,
    ) -> Value<'static>
        requires index { R.form.table.indexing.number_of at.now.index ≡ Some number }
        requires row { row_in self.now number ≡ Some row.now }
        requires fits { IsTrue (is_row_number R.form.table number) }
        ensures value { val_of result ≡ with_index (O.others others.now self.now) at.now.column at.now.index }
        ensures spelling { HasSpelling (val_of result) }
    {
        if at.column == INDEX {
            index_shown(&at.index)
        } else {
            others.other(number, row, at.column)
        }
    }
}

// The first number of an index, as a column shows it.
fn index_shown(index: &Oid) -> Value<'static>
    requires some { 0 < length index.now }
    requires fits { get_or index.now 0 0 < 2 ^ 31 }
    ensures value { val_of result ≡ index_value index.now }
    ensures spelling { HasSpelling (val_of result) }
{
    Value::Int(index.at(0) as i32)
}
