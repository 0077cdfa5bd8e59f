// What a Set gives to a row of a control table.
ghost use Rattle.std.specs.Prelude.{◌≡◌, ◌<◌, ◌∷◌, [], length, None, not, true};
ghost use Rattle.std.specs.Str.{bytes_eq};
ghost use Rattle.std.specs.Option.{option_or};
ghost use Rattle.rm_val.specs.Val.{val_of};
ghost use Rattle.rm_val.specs.Spellable.{HasSpelling};
ghost use Rattle.rm_val.specs.declared.error.ErrorStatus.TheVariants.{InconsistentValue};
ghost use Rattle.rm_model.specs.ControlTable.{row_index};
ghost use Rattle.rm_model.specs.ControlRows.{set_ask};
ghost use Rattle.rm_model.specs.Judgement.{IsFirstFault, place_of, writable_kind, value_fault, alone_fault, first_pass, is_again, row_fault, unless};
ghost use Rattle.rm_status.specs.Commit.{put_at, put_all};

use crate::place::{is_cell, may_be_of_row, place_under};
use crate::steps::{
    column_fault, fixed_fault, is_made, status_or_staying_fault, status_value_fault, value_ask,
};
use rm_columns::{ControlRow, check, may_always};
use rm_group::{Assigns, wrong_at};
use rm_model::{Ask, Place, State, Verdict};
use rm_val::{ErrorStatus, Oid, Value};

/// What a Set asks of a row.
pub(crate) fn set_ask<C: ControlRow, A: Assigns>(set: &A, entry: &Oid, row: u32) -> Ask
    requires { entry.now ≡ C.form.table.entry }
    ensures { result ≡ set_ask C.form.table (A.bindings set.now) (row_index C.form.table row) }
{
    let count = set.count();
    for place in 0..count {
        let name = set.name(place);
        if is_cell::<C>(&name, entry, C::status(), row) {
            let value = set.value(place);
            return value_ask(C::kind(), &value);
        }
    }
    Ask::Nothing
}

/// Whether an earlier binding names the variable that the one at a place names.
pub(crate) fn is_again<A: Assigns>(set: &A, place: usize) -> bool
    requires { place < length (A.bindings set.now) }
    ensures { result ≡ is_again (A.bindings set.now) place }
{
    let name = set.name(place);
    for earlier in 0..place {
        let other = set.name(earlier);
        if is_same(&other, &name) {
            return true;
        }
    }
    false
}

// Whether two names are the same. Their ends are compared first, where the names of a Set differ most.
fn is_same(name: &Oid, other: &Oid) -> bool
    ensures { result ≡ bytes_eq name.now other.now }
{
    ends_alike(name, other) && name.compare(other).is_eq()
}

// Whether two names are as long and have the same last number, as names that are the same have.
fn ends_alike(name: &Oid, other: &Oid) -> bool
    ensures { name.now ≡ other.now → result ≡ true }
{
    let count = name.len();
    count == other.len() && (count == 0 || name.at(count - 1) == other.at(count - 1))
}

/// What is wrong with a value for a column.
fn column_value_fault<C: ControlRow>(column: u32, value: &Value<'_>) -> Option<ErrorStatus>
    ensures { result ≡ value_fault (writable_kind C.form.table column) (val_of value.now) }
{
    if column == C::status() {
        status_value_fault(C::kind(), value)
    } else {
        check::<C>(column, value)
    }
}

/// What is wrong with a value alone, by where its name stands.
pub(crate) fn alone_fault<C: ControlRow>(place: Place, value: &Value<'_>) -> Option<ErrorStatus>
    ensures { result ≡ alone_fault C.form.table place (val_of value.now) }
{
    match place {
        Place::Outside => None,
        Place::Entry => Some(ErrorStatus::NotWritable),
        Place::Column(column) => match column_value_fault::<C>(column, value) {
            Some(fault) => Some(fault),
            None => Some(ErrorStatus::NoCreation),
        },
        Place::Cell(column, row) => match column_value_fault::<C>(column, value) {
            Some(fault) => Some(fault),
            None => {
                if C::is_row(row) {
                    None
                } else {
                    Some(ErrorStatus::NoCreation)
                }
            }
        },
    }
}

/// The first pass of a Set on one table.
pub(crate) fn judge_alone<C: ControlRow, A: Assigns>(set: &A, entry: &Oid) -> Verdict
    requires { entry.now ≡ C.form.table.entry }
    ensures { IsFirstFault (length (A.bindings set.now)) (first_pass C.form.table (A.bindings set.now)) result }
{
    let count = set.count();
    for place in 0..count {
        let name = set.name(place);
        let value = set.value(place);
        let at = place_under::<C>(&name, entry);
        match alone_fault::<C>(at, &value) {
            None => {}
            Some(fault) => return wrong_at(place, fault),
        }
    }
    Verdict::Fine
}

/// What is wrong with the binding of a column of a row. `crowded` says that the Set makes too many rows, and `again` that an
/// earlier binding names the same variable.
pub(crate) fn row_fault<C: ControlRow>(
    row: u32,
    state: State,
    asked: Ask,
    ready: bool,
    crowded: bool,
    again: bool,
    column: u32,
) -> Option<ErrorStatus>
    ensures { result ≡ row_fault C.form.table (row_index C.form.table row) state asked ready crowded again column }
{
    if is_made(state, asked) && crowded {
        return Some(ErrorStatus::InconsistentName);
    }
    let fault = if column == C::status() {
        status_or_staying_fault(C::kind(), C::stays(row), state, asked, ready)
    } else {
        column_fault(state, asked, may_always::<C>(column))
    };
    fixed_fault(C::is_fixed(row, column), or_again(fault, again))
}

// What is wrong with a binding, also where an earlier one names the same variable.
fn or_again(fault: Option<ErrorStatus>, again: bool) -> Option<ErrorStatus>
    ensures { result ≡ option_or fault (unless (not again) InconsistentValue) }
{
    match fault {
        Some(fault) => Some(fault),
        None => {
            if again {
                Some(ErrorStatus::InconsistentValue)
            } else {
                None
            }
        }
    }
}

/// Puts one binding into a row's columns.
fn put_one<C: ControlRow>(columns: &mut C, entry: &Oid, row: u32, name: &Oid, value: &Value<'_>)
    requires entry { entry.now ≡ C.form.table.entry }
    requires fine { alone_fault C.form.table (place_of C.form.table name.now) (val_of value.now) ≡ None }
    requires spelling { HasSpelling (val_of value.now) }
    ensures { columns.new ≡ put_at C.form.table C.form.with_column C.form.blank row (place_of C.form.table name.now) (val_of value.now) columns.old }
{
    if !may_be_of_row::<C>(name, entry, row) {
        return;
    }
    if let Place::Cell(column, number) = place_under::<C>(name, entry) {
        if number == row && column != C::status() {
            columns.put(column, value);
        }
    }
}

/// Puts the bindings of a row into its columns, so that of each variable the first one counts.
pub(crate) fn put_all<C: ControlRow, A: Assigns>(columns: &mut C, set: &A, entry: &Oid, row: u32)
    requires entry { entry.now ≡ C.form.table.entry }
    requires fine { IsFirstFault (length (A.bindings set.now)) (first_pass C.form.table (A.bindings set.now)) Verdict.Fine }
    ensures { columns.new ≡ put_all C.form.table C.form.with_column C.form.blank (A.bindings set.now) row columns.old }
{
    let mut place = set.count();
    while place > 0 {
        place -= 1;
        let name = set.name(place);
        let value = set.value(place);
        put_one(columns, entry, row, &name, &value);
    }
}
