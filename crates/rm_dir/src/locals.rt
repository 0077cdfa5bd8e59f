// Whether there are local indexes for the rows that a Set makes.
ghost use Rattle.std.specs.Prelude.{◌≡◌, ◌<◌, ◌≤◌, length, Some};
ghost use Rattle.rm_val.specs.Val.{val_of};
ghost use Rattle.rm_model.specs.ControlRows.{set_ask, value_ask};
ghost use Rattle.rm_model.specs.Judgement.{IsFirstFault, first_pass, name_at, place_of, is_again, is_made};
ghost use Rattle.rm_model.specs.declared.row.StatusKind.TheVariants.{RowStatus};
ghost use Rattle.rm_model.specs.declared.verdict.Verdict.TheVariants.{Fine};
ghost use Rattle.rm_status.specs.Commit.{is_cell, made_by, count_made};
ghost use Rattle.rm_status.specs.Rows.{rows_before, state_in};
ghost use Rattle.rm_dir.specs.DirectoryIndex.{directory_index};
ghost use Rattle.rm_dir.specs.DirectoryRows.{set_to};
ghost use Rattle.rm_dir.specs.Judging.{are_used_up, local_fault, local_fault_by};
ghost use Rattle.rm_dir.specs.ProtocolDir.{protocol_dir};
ghost use Rattle.std.specs.Str.{bytes_eq};

use crate::row::{DirectoryRow, STATUS};
use crate::settle::MOST_LOCAL;
use rm_columns::ControlRow;
use rm_group::{Assigns, wrong_at};
use rm_model::{Ask, Place, State, Verdict};
use rm_status::{Controls, place_under};
use rm_val::{ErrorStatus, Oid, Value};

/// Judges a Set where so many local indexes were given before. Where fewer are left than the rows that it makes, inconsistentName, at the first
/// binding of one of these rows.
pub fn judge_locals<A: Assigns>(rows: &Controls<DirectoryRow>, given: u32, set: &A) -> Verdict
    requires { IsFirstFault (length (A.bindings set.now)) (first_pass protocol_dir (A.bindings set.now)) Fine }
    ensures { let bindings = A.bindings set.now in
        IsFirstFault (length bindings) (local_fault given (rows_before protocol_dir set_to rows.now) bindings) result }
{
    let used_up = are_used_up(rows, given, set);
    for place in 0..set.count() {
        if let Some(status) = local_fault(rows, set, used_up, place) {
            return wrong_at(place, status);
        }
    }
    Verdict::Fine
}

// What is wrong with the binding at a place: where too few local indexes are left, that it is of a row that the Set makes.
fn local_fault<A: Assigns>(
    rows: &Controls<DirectoryRow>,
    set: &A,
    used_up: bool,
    place: usize,
) -> Option<ErrorStatus>
    requires { place < length (A.bindings set.now) }
    ensures { let bindings = A.bindings set.now in
        result ≡ local_fault_by used_up (rows_before protocol_dir set_to rows.now) bindings (place_of protocol_dir (name_at bindings place)) }
{
    let name = set.name(place);
    match place_under::<DirectoryRow>(&name, &DirectoryRow::entry()) {
        Place::Cell(_, row) if used_up && makes(rows, set, row) => {
            Some(ErrorStatus::InconsistentName)
        }
        _ => None,
    }
}

// Whether fewer local indexes are left than the rows that a Set makes. These aren't counted where there are as many as bindings.
fn are_used_up<A: Assigns>(rows: &Controls<DirectoryRow>, given: u32, set: &A) -> bool
    requires { IsFirstFault (length (A.bindings set.now)) (first_pass protocol_dir (A.bindings set.now)) Fine }
    ensures { result ≡ are_used_up given (rows_before protocol_dir set_to rows.now) (A.bindings set.now) }
{
    let left = MOST_LOCAL as usize;
    let given = given as usize;
    given + set.count() > left && given + count_made(rows, set) > left
}

// How many rows a Set makes.
fn count_made<A: Assigns>(rows: &Controls<DirectoryRow>, set: &A) -> usize
    ensures value { result ≡ count_made protocol_dir (state_in rows.now) (A.bindings set.now) (length (A.bindings set.now)) }
    ensures few { result ≤ 128 }
{
    let mut made = 0;
    for place in 0..set.count() {
        made += made_by(rows, set, place);
    }
    made
}

// How many rows the binding at a place makes, one or none: the first one of a row's status does.
fn made_by<A: Assigns>(rows: &Controls<DirectoryRow>, set: &A, place: usize) -> usize
    requires { place < length (A.bindings set.now) }
    ensures value { let bindings = A.bindings set.now in
        result ≡ made_by protocol_dir (state_in rows.now) bindings (is_again bindings place) (place_of protocol_dir (name_at bindings place)) }
    ensures few { result ≤ 1 }
{
    let name = set.name(place);
    match place_under::<DirectoryRow>(&name, &DirectoryRow::entry()) {
        Place::Cell(column, row) if column == STATUS => {
            let again = is_again(set, place);
            if !again && makes(rows, set, row) {
                1
            } else {
                0
            }
        }
        _ => 0,
    }
}

// Whether an earlier binding names the variable that the one at a place names.
fn is_again<A: Assigns>(set: &A, place: usize) -> bool
    requires { place < length (A.bindings set.now) }
    ensures { result ≡ is_again (A.bindings set.now) place }
{
    let name = set.name(place);
    for earlier in 0..place {
        if is_same(&set.name(earlier), &name) {
            return true;
        }
    }
    false
}

// Whether two names are the same.
fn is_same(name: &Oid, other: &Oid) -> bool
    ensures { result ≡ bytes_eq name.now other.now }
{
    name.compare(other).is_eq()
}

// Whether a Set makes a row.
fn makes<A: Assigns>(rows: &Controls<DirectoryRow>, set: &A, row: u32) -> bool
    ensures { result ≡ is_made (state_in rows.now row) (set_ask protocol_dir (A.bindings set.now) (directory_index row)) }
{
    match (rows.state(row), set_ask(set, row)) {
        (State::Absent, Ask::Create) | (State::Absent, Ask::CreateValid) => true,
        _ => false,
    }
}

// What a Set asks of a row.
fn set_ask<A: Assigns>(set: &A, row: u32) -> Ask
    ensures { result ≡ set_ask protocol_dir (A.bindings set.now) (directory_index row) }
{
    for place in 0..set.count() {
        if is_status(&set.name(place), row) {
            return value_ask(&set.value(place));
        }
    }
    Ask::Nothing
}

// Whether a name is that of the status of a row.
fn is_status(name: &Oid, row: u32) -> bool
    ensures { result ≡ is_cell 10 row (place_of protocol_dir name.now) }
{
    match place_under::<DirectoryRow>(name, &DirectoryRow::entry()) {
        Place::Cell(column, number) => number == row && column == STATUS,
        _ => false,
    }
}

// What the value of a status asks.
fn value_ask(value: &Value<'_>) -> Ask
    ensures { result ≡ value_ask RowStatus (Some (val_of value.now)) }
{
    match value {
        Value::Int(1) => Ask::Enable,
        Value::Int(2) => Ask::Disable,
        Value::Int(4) => Ask::CreateValid,
        Value::Int(5) => Ask::Create,
        Value::Int(6) => Ask::Destroy,
        _ => Ask::Nothing,
    }
}
