// Whether the variables can be read of the alarms that a Set makes valid.
ghost use Rattle.std.specs.Prelude.{◌≡◌, ◌<◌, length, false, is_none, if◌then◌else◌};
ghost use Rattle.std.specs.Option.{option_map_or};
ghost use Rattle.rm_acts.specs.Alarms.{alarm_table};
ghost use Rattle.rm_val.specs.Val.{val_of};
ghost use Rattle.rm_val.specs.Spellable.{HasSpelling};
ghost use Rattle.rm_model.specs.Judgement.{IsFirstFault, value_at};
ghost use Rattle.rm_status.specs.Rows.{rows_before, state_in};
ghost use Rattle.rm_alarm.specs.Group.{makes_valid, is_under_creation, variable_then, variable_fault, AreSpelledValues};
ghost use Rattle.rm_alarm.specs.Rows.{set_to};

use crate::change::variable_with;
use crate::column::STATUS;
use crate::row::AlarmRow;
use rm_columns::ControlRow;
use rm_group::{Assigns, Look, wrong_at};
use rm_model::{Place, State, Verdict};
use rm_status::{Controls, place_under};
use rm_val::{ErrorStatus, Oid, Value};

/// Names the first binding that makes an alarm valid of whose variable there is no reading at a moment, in milliseconds.
pub(crate) fn judge_variables<A: Assigns, L: Look>(
    rows: &Controls<AlarmRow>,
    set: &A,
    now: u32,
    look: &L,
) -> Verdict
    ensures verdict { let bindings = A.bindings set.now in
        IsFirstFault (length bindings) (variable_fault (L.readings look.now now) (rows_before alarm_table set_to rows.now) bindings) result }
    ensures spelled { result ≡ Verdict.Fine → AreSpelledValues (A.bindings set.now) }
{
    for place in 0..set.count() {
        if let Some(status) = variable_fault(rows, set, now, look, place) {
            return wrong_at(place, status);
        }
    }
    Verdict::Fine
}

// What is wrong with the binding at a place.
fn variable_fault<A: Assigns, L: Look>(
    rows: &Controls<AlarmRow>,
    set: &A,
    now: u32,
    look: &L,
    place: usize,
) -> Option<ErrorStatus>
    requires { place < length (A.bindings set.now) }
    ensures fault { result ≡ variable_fault (L.readings look.now now) (rows_before alarm_table set_to rows.now) (A.bindings set.now) place }
    ensures spelled { HasSpelling (value_at (A.bindings set.now) place) }
{
    let name = set.name(place);
    let value = set.value(place);
    match place_under::<AlarmRow>(&name, &AlarmRow::entry()) {
        Place::Cell(column, row) => {
            let variable = variable_made(rows, set, row);
            if column == STATUS && makes_valid(&value) && is_unread(variable, now, look) {
                Some(ErrorStatus::InconsistentValue)
            } else {
                None
            }
        }
        _ => None,
    }
}

// Whether a value of a status makes a row valid.
fn makes_valid(value: &Value<'_>) -> bool
    ensures { result ≡ makes_valid (val_of value.now) }
{
    match value {
        Value::Int(number) => *number == 1,
        _ => false,
    }
}

// The variable that a row which is under creation has with what a Set gives to it. None where no row of that index is.
fn variable_made<A: Assigns>(rows: &Controls<AlarmRow>, set: &A, index: u32) -> Option<Oid>
    ensures { result ≡ (if is_under_creation (state_in rows.now index)
        then Some (variable_then (rows_before alarm_table set_to rows.now) (A.bindings set.now) index) else None) }
{
    let row = rows.get(index)?;
    match rows.state(index) {
        State::UnderCreation => Some(variable_with(set, index, row)),
        _ => None,
    }
}

// Whether there is a variable, and no reading of it at a moment, in milliseconds.
fn is_unread<L: Look>(variable: Option<Oid>, now: u32, look: &L) -> bool
    ensures { result ≡ option_map_or (λ name. is_none (L.readings look.now now name)) variable false }
{
    match variable {
        Some(name) => look.reading(&name, now).is_none(),
        None => false,
    }
}
