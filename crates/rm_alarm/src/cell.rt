// The cells of alarmTable.
ghost use Rattle.std.specs.Prelude.{◌≡◌, [], ◌∷◌};
ghost use Rattle.rm_acts.specs.Alarms.{alarm_entry};
ghost use Rattle.rm_model.specs.ControlRows.{cell_name};
ghost use Rattle.rm_alarm.specs.Shown.{kept_other};

use crate::column::VARIABLE;
use crate::row::AlarmRow;
use rm_status::{OtherColumns, Row};
use rm_val::{Oid, Value};

/// The name of a column, by its number, in a row.
pub fn column_name(column: u32, index: u32) -> Oid
    ensures { result ≡ cell_name alarm_entry column (index ∷ []) }
{
    Oid::from_slice(&[1, 3, 6, 1, 2, 1, 16, 3, 1, 1, column, index]).unwrap()
}

/// The name of alarmVariable in a row.
pub(crate) fn variable_name(index: u32) -> Oid
    ensures { result ≡ cell_name alarm_entry 3 (index ∷ []) }
{
    column_name(VARIABLE, index)
}

/// alarmValue
#[derive(Clone, Copy)]
pub(crate) struct LastValue;

impl OtherColumns<AlarmRow> for LastValue {
    ghost others = { λ s rows. kept_other rows };

    fn other(&self, _index: u32, row: &Row<AlarmRow>, _column: u32) -> Value<'static> {
        Value::Int(row.columns.value())
    }
}
