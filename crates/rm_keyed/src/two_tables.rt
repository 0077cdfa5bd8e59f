// Two tables of inner rows under one control table.
ghost use Rattle.std.specs.Prelude.{◌≡◌, length, IfSome, OnSome, IfNone};
ghost use Rattle.std.specs.Option.{option_map};
ghost use Rattle.rm_val.specs.Val.{val_of};
ghost use Rattle.rm_val.specs.Spellable.{IsSpellable, HasSpelling};
ghost use Rattle.rm_model.specs.Cells.{IsNext};
ghost use Rattle.rm_model.specs.Judgement.{IsFirstFault};
ghost use Rattle.rm_group.specs.Alone.{alone_at};
ghost use Rattle.rm_nested.specs.InnerTable.{inner_table};
ghost use Rattle.rm_keyed.specs.TwoTables.{cells_of_two, alone_of_two};

use rm_group::{Assigns, choose_nearer, judge_read_only, lower_verdict};
use rm_model::Verdict;
use rm_nested::{InnerCells, InnerTable, inner_cell, next_inner_cell};
use rm_val::{Oid, Value};

/// The value of the cell with that name in one of two tables of inner rows, at a moment in milliseconds. None where neither has such a
/// cell.
pub fn cell_of_two<'a, I: InnerCells<'a>, J: InnerCells<'a>>(
    first: &I,
    second: &J,
    name: &Oid,
    now: u32,
) -> Option<Value<'a>>
    requires first { I.can_show first.now }
    requires second { J.can_show second.now }
    ensures value { option_map val_of result ≡ cells_of_two (inner_table I.entry I.columns (I.is_inner first.now now) (I.shown first.now))
        (inner_table J.entry J.columns (J.is_inner second.now now) (J.shown second.now)) name.now }
    ensures spelling { IfSome result (λ value. HasSpelling (val_of value)) }
{
    match inner_cell(first, name, now) {
        Some(value) => Some(value),
        None => inner_cell(second, name, now),
    }
}

/// The value of the cell with the least name above that one (RFC 1905, section 4.2.2), in one of two tables of inner rows, at a moment in
/// milliseconds. Its name is put into `out`. None where no cell of these tables has a greater name; `out` is then as before.
pub fn next_of_two<'a, I: InnerCells<'a> + Copy, J: InnerCells<'a> + Copy>(
    first: I,
    second: J,
    name: &Oid,
    now: u32,
    out: &mut Oid,
) -> Option<Value<'a>>
    requires first { I.can_show first }
    requires second { J.can_show second }
    ensures next { IsNext (cells_of_two (inner_table I.entry I.columns (I.is_inner first now) (I.shown first))
        (inner_table J.entry J.columns (J.is_inner second now) (J.shown second))) name.now (option_map val_of result) out.new }
    ensures stays { IfNone result (out.new ≡ out.old) }
    ensures name_spelling { OnSome result (IsSpellable out.new) }
    ensures spelling { IfSome result (λ value. HasSpelling (val_of value)) }
{
    let nearer = next_inner_cell(first, name, now, out);
    // No row of the second table has a name below its entry.
    if nearer.is_some() && out.compare(&J::entry()).is_lt() {
        return nearer;
    }
    let mut other = Oid::new();
    let entry = next_inner_cell(second, name, now, &mut other);
    choose_nearer(nearer, out, entry, other)
}

/// The first pass of a Set on two tables of inner rows, of which no column can be set.
pub fn judge_two<'a, I: InnerCells<'a>, J: InnerCells<'a>, A: Assigns>(set: &A) -> Verdict
    ensures { let bindings = A.bindings set.now in
        IsFirstFault (length bindings) (alone_at (alone_of_two (record { entry = I.entry; columns = I.columns }) (record { entry = J.entry; columns = J.columns })) bindings) result }
{
    let first = judge_read_only(set, &I::entry(), I::columns());
    let second = judge_read_only(set, &J::entry(), J::columns());
    lower_verdict(first, second)
}
