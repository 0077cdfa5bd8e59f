// The steps of row status.
ghost use Rattle.std.specs.Prelude.{◌≡◌, Some};
ghost use Rattle.std.specs.Option.{option_or};
ghost use Rattle.rm_val.specs.Val.{val_of};
ghost use Rattle.rm_model.specs.ControlRows.{next_state, value_ask};
ghost use Rattle.rm_model.specs.Judgement.{status_values, value_fault, is_made, status_fault, column_fault, staying_fault, fixed_fault};

use rm_model::{Ask, State, StatusKind};
use rm_val::{ErrorStatus, Value};

/// The state of a row that was asked something.
pub(crate) fn next_state(ask: Ask, state: State) -> State
    ensures { result ≡ next_state ask state }
{
    match (ask, state) {
        (Ask::Create, State::Absent) => State::UnderCreation,
        (Ask::CreateValid, State::Absent) => State::Valid,
        (Ask::Enable, State::UnderCreation) => State::Valid,
        (Ask::Disable, State::Valid) => State::UnderCreation,
        (Ask::Destroy, _) => State::Absent,
        (_, state) => state,
    }
}

/// What the value of a status asks.
pub(crate) fn value_ask(kind: StatusKind, value: &Value<'_>) -> Ask
    ensures { result ≡ value_ask kind (Some (val_of value.now)) }
{
    let Value::Int(number) = value else {
        return Ask::Nothing;
    };
    match (kind, *number) {
        (StatusKind::EntryStatus, 1) => Ask::Enable,
        (StatusKind::EntryStatus, 2) => Ask::Create,
        (StatusKind::EntryStatus, 3) => Ask::Disable,
        (StatusKind::EntryStatus, 4) => Ask::Destroy,
        (StatusKind::RowStatus, 1) => Ask::Enable,
        (StatusKind::RowStatus, 2) => Ask::Disable,
        (StatusKind::RowStatus, 4) => Ask::CreateValid,
        (StatusKind::RowStatus, 5) => Ask::Create,
        (StatusKind::RowStatus, 6) => Ask::Destroy,
        _ => Ask::Nothing,
    }
}

/// What is wrong with a value for a status.
pub(crate) fn status_value_fault(kind: StatusKind, value: &Value<'_>) -> Option<ErrorStatus>
    ensures { result ≡ value_fault (Some (status_values kind)) (val_of value.now) }
{
    let Value::Int(number) = value else {
        return Some(ErrorStatus::WrongType);
    };
    let number = *number;
    let is_status = match kind {
        StatusKind::EntryStatus => 1 <= number && number <= 4,
        StatusKind::RowStatus => 1 <= number && number <= 2 || 4 <= number && number <= 6,
    };
    if is_status {
        None
    } else {
        Some(ErrorStatus::WrongValue)
    }
}

/// Whether what asks this of a row of that state makes the row.
pub(crate) fn is_made(state: State, ask: Ask) -> bool
    ensures { result ≡ is_made state ask }
{
    match (state, ask) {
        (State::Absent, Ask::Create) => true,
        (State::Absent, Ask::CreateValid) => true,
        _ => false,
    }
}

// What is wrong with the binding of the status of a row that may go.
fn status_fault(kind: StatusKind, state: State, ask: Ask, ready: bool) -> Option<ErrorStatus>
    ensures { result ≡ status_fault kind state ask ready }
{
    match (state, ask) {
        (State::Absent, Ask::Enable) | (State::Absent, Ask::Disable) => match kind {
            StatusKind::EntryStatus => Some(ErrorStatus::InconsistentName),
            StatusKind::RowStatus => Some(ErrorStatus::InconsistentValue),
        },
        (State::Absent, Ask::CreateValid) | (State::UnderCreation, Ask::Enable) => {
            if ready {
                None
            } else {
                Some(ErrorStatus::InconsistentValue)
            }
        }
        (State::Absent, _) => None,
        (_, Ask::Create) | (_, Ask::CreateValid) => Some(ErrorStatus::InconsistentValue),
        _ => None,
    }
}

/// What is wrong with the binding of another column of a row.
pub(crate) fn column_fault(state: State, ask: Ask, always: bool) -> Option<ErrorStatus>
    ensures { result ≡ column_fault state ask always }
{
    match (state, ask) {
        (State::Absent, Ask::Create) | (State::Absent, Ask::CreateValid) => None,
        (State::Absent, _) => Some(ErrorStatus::InconsistentName),
        (State::UnderCreation, _) => None,
        (State::Valid, Ask::Disable) => None,
        (State::Valid, _) => {
            if always {
                None
            } else {
                Some(ErrorStatus::InconsistentValue)
            }
        }
    }
}

/// What is wrong with the binding of a row's status, also of a row that was there from the beginning and stays.
pub(crate) fn status_or_staying_fault(
    kind: StatusKind,
    stays: bool,
    state: State,
    ask: Ask,
    ready: bool,
) -> Option<ErrorStatus>
    ensures { result ≡ option_or (staying_fault stays ask) (status_fault kind state ask ready) }
{
    match staying_fault(stays, ask) {
        Some(fault) => Some(fault),
        None => status_fault(kind, state, ask, ready),
    }
}

// What is wrong with a status of a row that stays: any but that it is valid.
fn staying_fault(stays: bool, ask: Ask) -> Option<ErrorStatus>
    ensures { result ≡ staying_fault stays ask }
{
    if !stays {
        return None;
    }
    match ask {
        Ask::Nothing | Ask::Enable => None,
        _ => Some(ErrorStatus::InconsistentValue),
    }
}

/// What is wrong with a column that can never be set: that comes behind a row that isn't there, and before what its row doesn't take.
pub(crate) fn fixed_fault(fixed: bool, fault: Option<ErrorStatus>) -> Option<ErrorStatus>
    ensures { result ≡ fixed_fault fixed fault }
{
    if fixed && !matches!(fault, Some(ErrorStatus::InconsistentName)) {
        Some(ErrorStatus::NotWritable)
    } else {
        fault
    }
}
