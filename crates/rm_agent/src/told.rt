// What a trap tells of its alarm.
ghost use Rattle.std.specs.Prelude.{◌≡◌, ◌≤◌, ◌⊎◌};
ghost use Rattle.rm_val.specs.Spellable.{IsSpellable};
ghost use Rattle.rm_alarm.specs.Rows.{variable_kept};

use rm_alarm::AlarmRow;
use rm_alarm::column::RISING_THRESHOLD;
use rm_columns::Numbered;
use rm_val::Oid;

/// What a trap tells of its alarm.
#[derive(Drop)]
pub(crate) struct Told {
    /// alarmIndex
    pub index: i32,
    /// alarmVariable
    pub variable: Oid,
    /// alarmSampleType
    pub sample_type: i32,
    /// alarmValue
    pub value: i32,
    /// The threshold that was crossed.
    pub threshold: i32,
}

impl Told {
    ghost use Rattle.rm_model.specs.Counting.{Counting};
    ghost use Rattle.rm_model.specs.Journal.{Journal};
    ghost use Rattle.rm_alarm.specs.ShownRow.{AreShown};
    ghost use Rattle.rm_agent.specs.Told.{told_of};

    /// What a trap tells of the alarm with a number and these columns, whose sample crossed the threshold in a column.
    pub fn of(row: &AlarmRow, alarm: u32, threshold: u32) -> Told
        requires index { alarm ≤ 65535 }
        requires spelling { IsSpellable (variable_kept row.now) }
        requires threshold { (threshold ≡ 7) ⊎ (threshold ≡ 8) }
        ensures told { (settings : Counting) (journal : Journal) → AreShown settings journal alarm row.now
            → result ≡ told_of settings journal alarm threshold }
        ensures spelling { IsSpellable result.variable }
    {
        Told {
            index: alarm as i32,
            variable: row.variable(),
            sample_type: row.sample_type.number(),
            value: row.value(),
            threshold: if threshold == RISING_THRESHOLD {
                row.thresholds.rising
            } else {
                row.thresholds.falling
            },
        }
    }
}
