// The cells of inner rows.
ghost use Rattle.std.specs.Prelude.{◌≡◌, ℕ, ◌+◌, List, length, Some, IfSome, OnSome, IfNone};
ghost use Rattle.std.specs.Option.{option_map, option_or};
ghost use Rattle.rm_val.specs.Val.{Val, val_of};
ghost use Rattle.rm_val.specs.Spellable.{IsSpellable, HasSpelling};
ghost use Rattle.rm_model.specs.Cells.{cells_of, cell_at, IsNext};
ghost use Rattle.rm_model.specs.Judgement.{IsFirstFault};
ghost use Rattle.rm_group.specs.Alone.{alone_at};
ghost use Rattle.rm_group.specs.Listed.{alone_beside};
ghost use Rattle.rm_status.specs.RowsShown.{AreSpelled, rows_shown};
ghost use Rattle.rm_nested.specs.InnerTable.{inner_table};

use crate::inner_rows::InnerRows;
use crate::inner_table::InnerTable;
use crate::nested::Nested;
use rm_columns::ControlRow;
use rm_group::{
    Assigns, TableObjects, choose_nearer, instance_of, judge_read_only, lower_verdict, next_name,
};
use rm_model::{Instance, Verdict};
use rm_status::{Controls, OtherColumns};
use rm_val::{Oid, Value};

/// Inner rows, with what the columns of their table show.
pub trait InnerCells<'a>: InnerTable {
    /// What a column shows, by its number and the index of a row.
    ghost shown: { Self → ℕ → List ℕ → Val };

    /// Whether each index has a value.
    ghost can_show: { Self → Type 0 };

    /// The value at an instance, at a moment in milliseconds. None where there is no such row.
    fn value(&self, at: &Instance, now: u32) -> Option<Value<'a>>
        requires { can_show self.now }
        ensures value { option_map val_of result ≡ cell_at (inner_table Self.InnerTable.entry Self.InnerTable.columns (Self.InnerRows.is_inner self.now now) (shown self.now)) (Some at.now) }
        ensures spelling { IfSome result (λ value. HasSpelling (val_of value)) };
}

/// The value of the cell with that name, at a moment in milliseconds. None where the table has no such cell.
pub fn inner_cell<'a, R: InnerCells<'a>>(rows: &R, name: &Oid, now: u32) -> Option<Value<'a>>
    requires { R.can_show rows.now }
    ensures value { option_map val_of result ≡ cells_of (inner_table R.entry R.columns (R.is_inner rows.now now) (R.shown rows.now)) name.now }
    ensures spelling { IfSome result (λ value. HasSpelling (val_of value)) }
{
    let at = instance_of(name, &R::entry(), R::columns())?;
    rows.value(&at, now)
}

/// The value of the cell with the least name above that one (RFC 1905, section 4.2.2), at a moment in milliseconds. Its name is put
/// into `out`. None where no cell of the table has a greater name; `out` is then as before.
pub fn next_inner_cell<'a, R: InnerCells<'a> + Copy>(
    rows: R,
    name: &Oid,
    now: u32,
    out: &mut Oid,
) -> Option<Value<'a>>
    requires { R.can_show rows }
    ensures next { IsNext (cells_of (inner_table R.entry R.columns (R.is_inner rows now) (R.shown rows))) name.now (option_map val_of result) out.new }
    ensures stays { IfNone result (out.new ≡ out.old) }
    ensures name_spelling { OnSome result (IsSpellable out.new) }
    ensures spelling { IfSome result (λ value. HasSpelling (val_of value)) }
{
    let nested = Nested { rows };
    *out = next_name(&nested, &R::entry(), R::columns(), name, now)?;
    inner_cell(&rows, out, now)
}

/// The value of the cell with that name in a control table or in a table of inner rows, at a moment in milliseconds. `others` shows
/// the columns of the control table that can't be set. None where neither table has such a cell.
pub fn cell_of_both<'a, R: ControlRow, O: OtherColumns<R>, I: InnerCells<'a>>(
    rows: &'a Controls<R>,
    others: &O,
    inner: &I,
    name: &Oid,
    now: u32,
) -> Option<Value<'a>>
    requires spelled { AreSpelled R.spelled rows.now }
    requires can_show { I.can_show inner.now }
    ensures value { option_map val_of result ≡ option_or (cells_of (rows_shown R.form (O.others others.now rows.now) rows.now) name.now)
        (cells_of (inner_table I.entry I.columns (I.is_inner inner.now now) (I.shown inner.now)) name.now) }
    ensures spelling { IfSome result (λ value. HasSpelling (val_of value)) }
{
    match rows.cell(others, name) {
        Some(value) => Some(value),
        None => inner_cell(inner, name, now),
    }
}

/// The value of the cell with the least name above that one (RFC 1905, section 4.2.2), in a control table or in a table of inner
/// rows, at a moment in milliseconds. Its name is put into `out`. None where no cell of either table has a greater name; `out` is
/// then as before.
pub fn next_of_both<'a, R: ControlRow, O: OtherColumns<R>, I: InnerCells<'a> + Copy>(
    rows: &'a Controls<R>,
    others: &O,
    inner: I,
    name: &Oid,
    now: u32,
    out: &mut Oid,
) -> Option<Value<'a>>
    requires spelled { AreSpelled R.spelled rows.now }
    requires can_show { I.can_show inner }
    ensures next { IsNext (λ asked. option_or (cells_of (rows_shown R.form (O.others others.now rows.now) rows.now) asked)
        (cells_of (inner_table I.entry I.columns (I.is_inner inner now) (I.shown inner)) asked)) name.now (option_map val_of result) out.new }
    ensures stays { IfNone result (out.new ≡ out.old) }
    ensures name_spelling { OnSome result (IsSpellable out.new) }
    ensures spelling { IfSome result (λ value. HasSpelling (val_of value)) }
{
    let control = rows.next_cell(others, name, out);
    // No inner row has a name below the entry of its table.
    if control.is_some() && out.compare(&I::entry()).is_lt() {
        return control;
    }
    let mut other = Oid::new();
    let entry = next_inner_cell(inner, name, now, &mut other);
    choose_nearer(control, out, entry, other)
}

/// The first pass of a Set on a control table and on a table of inner rows, of which no column can be set.
pub fn judge_both<'a, R: ControlRow, I: InnerCells<'a>, A: Assigns>(
    rows: &Controls<R>,
    set: &A,
) -> Verdict
    ensures { let bindings = A.bindings set.now in
        IsFirstFault (length bindings) (alone_at (alone_beside R.form.table (record { entry = I.entry; columns = I.columns })) bindings) result }
{
    let control = rows.judge_alone(set);
    let inner = judge_read_only(set, &I::entry(), I::columns());
    lower_verdict(control, inner)
}
