// The columns of a row of alarmTable.
ghost use Rattle.std.specs.Prelude.{◌≡◌, refl};

use crate::column::{
    FALLING_EVENT_INDEX, FALLING_THRESHOLD, INDEX, INTERVAL, OWNER, RISING_EVENT_INDEX,
    RISING_THRESHOLD, SAMPLE_TYPE, STARTUP_ALARM, STATUS, VALUE, VARIABLE,
};
use crate::row::AlarmRow;
use crate::sample_type::SampleType;
use crate::startup_alarm::StartupAlarm;
use crate::thresholds::Thresholds;
use arrayvec::ArrayVec;
use rm_columns::{
    ControlRow, ControlSheet, Numbered, OneNumber, name_in, number_in, put_text, same_text,
};
use rm_group::TableObjects;
use rm_model::Setting::{Empty, NoName, Number};
use rm_model::{ColumnKind, StatusKind, column, numbers};
use rm_val::{Oid, Value};

/// The objects of alarmTable.
pub(crate) const ALARM_OBJECTS: TableObjects = TableObjects {
    entry: &[1, 3, 6, 1, 2, 1, 16, 3, 1, 1],
    columns: &[
        INDEX,
        INTERVAL,
        VARIABLE,
        SAMPLE_TYPE,
        VALUE,
        STARTUP_ALARM,
        RISING_THRESHOLD,
        FALLING_THRESHOLD,
        RISING_EVENT_INDEX,
        FALLING_EVENT_INDEX,
        OWNER,
        STATUS,
    ],
};

/// alarmTable (RFC 1757, section 5)
const TABLE: ControlSheet = ControlSheet {
    objects: ALARM_OBJECTS,
    status: STATUS,
    kind: StatusKind::EntryStatus,
    most: 16,
    columns: &[
        column!(INTERVAL, numbers!(1, i32::MAX), Number(0), needed),
        column!(VARIABLE, ColumnKind::AnyName, NoName, needed),
        column!(SAMPLE_TYPE, numbers!(1, 2), Number(1)),
        column!(STARTUP_ALARM, numbers!(1, 3), Number(3)),
        column!(RISING_THRESHOLD, numbers!(i32::MIN, i32::MAX), Number(0)),
        column!(FALLING_THRESHOLD, numbers!(i32::MIN, i32::MAX), Number(0)),
        column!(RISING_EVENT_INDEX, numbers!(0, 65535), Number(0)),
        column!(FALLING_EVENT_INDEX, numbers!(0, 65535), Number(0)),
        column!(OWNER, ColumnKind::Text(127), Empty, always),
    ],
};

impl ControlRow for AlarmRow {
    type Keys = OneNumber;

    ghost use Rattle.rm_val.specs.Spellable.{IsSpellable};
    ghost use Rattle.rm_alarm.specs.Rows.{variable_kept};
    ghost use Rattle.rm_alarm.specs.RowForm.{alarm_rows};

    ghost form = { alarm_rows };

    ghost spelled = { λ row. IsSpellable (variable_kept row) };

    ghost keyed = { (refl, refl) };

    fn table() -> ControlSheet {
        TABLE
    }

    fn blank(_index: u32) -> Self {
        AlarmRow {
            interval: None,
            variable: None,
            sample_type: SampleType::Absolute,
            thresholds: Thresholds {
                startup: StartupAlarm::RisingOrFalling,
                rising: 0,
                falling: 0,
            },
            rising_event: 0,
            falling_event: 0,
            owner: ArrayVec::new(),
            base: None,
            course: None,
        }
    }

    fn put(&mut self, column: u32, value: &Value<'_>) {
        match column {
            INTERVAL => self.interval = Some(number_in(value)),
            VARIABLE => self.variable = Some(name_in(value)),
            SAMPLE_TYPE => self.sample_type = SampleType::given(value),
            STARTUP_ALARM => self.thresholds.startup = StartupAlarm::given(value),
            RISING_THRESHOLD => self.thresholds.rising = number_in(value),
            FALLING_THRESHOLD => self.thresholds.falling = number_in(value),
            RISING_EVENT_INDEX => self.rising_event = number_in(value),
            FALLING_EVENT_INDEX => self.falling_event = number_in(value),
            OWNER => put_text(&mut self.owner, value),
            _ => {}
        }
    }

    fn show(&self, column: u32) -> Option<Value<'_>> {
        match column {
            INTERVAL => Some(Value::Int(self.interval?)),
            VARIABLE => Some(Value::Name(copied(&self.variable)?)),
            SAMPLE_TYPE => Some(Value::Int(self.sample_type.number())),
            STARTUP_ALARM => Some(Value::Int(self.thresholds.startup.number())),
            RISING_THRESHOLD => Some(Value::Int(self.thresholds.rising)),
            FALLING_THRESHOLD => Some(Value::Int(self.thresholds.falling)),
            RISING_EVENT_INDEX => Some(Value::Int(self.rising_event)),
            FALLING_EVENT_INDEX => Some(Value::Int(self.falling_event)),
            OWNER => Some(Value::Octets(self.owner.as_slice())),
            _ => None,
        }
    }

    fn agree(&self) -> bool {
        self.thresholds.falling <= self.thresholds.rising
    }

    fn bare(&self) -> Self {
        AlarmRow {
            interval: self.interval,
            variable: copied(&self.variable),
            sample_type: self.sample_type,
            thresholds: self.thresholds,
            rising_event: self.rising_event,
            falling_event: self.falling_event,
            owner: same_text(&self.owner),
            base: None,
            course: None,
        }
    }
}

// The same name.
fn copied(variable: &Option<Oid>) -> Option<Oid>
    ensures { result ≡ variable.now }
{
    match variable {
        Some(name) => Some(name.copied()),
        None => None,
    }
}
