// The group alarm.
ghost use Rattle.std.specs.Prelude.{◌≡◌, ◌≤◌, true, IfSome, MatchOption};
ghost use Rattle.rm_val.specs.Spellable.{IsSpellable};
ghost use Rattle.rm_acts.specs.Alarms.{IsNextDue};
ghost use Rattle.rm_alarm.specs.Due.{due_at, next_prop};
ghost use Rattle.rm_alarm.specs.Spelled.{AreSpelled, spelled_prop};
ghost use Rattle.rm_alarm.specs.Paced.{ArePaced, paced_prop};

use crate::row::AlarmRow;
use rm_status::Controls;

/// The alarms of the probe: alarmTable (RFC 1757, section 5).
#[derive(Drop)]
pub struct Alarms {
    pub(crate) rows: Controls<AlarmRow>,
    // The sample that is taken next: its moment, in milliseconds, and the number of its alarm.
    pub(crate) next: Option<(u64, u32)>,
    ghost spelled: { AreSpelled rows } by { spelled_prop rows },
    ghost paced: { ArePaced rows } by { paced_prop rows },
    ghost nearest: { IsNextDue (due_at rows) next } by { next_prop (due_at rows) next },
}

impl Alarms {
    ghost use Rattle.rm_model.specs.Counting.{Counting};
    ghost use Rattle.rm_model.specs.Journal.{Journal};
    ghost use Rattle.rm_model.specs.ControlRows.{is_valid};
    ghost use Rattle.rm_acts.specs.Alarms.{alarm_state};
    ghost use Rattle.rm_alarm.specs.Rows.{variable_kept};
    ghost use Rattle.rm_alarm.specs.Standing.{Stands};
    ghost use Rattle.rm_alarm.specs.ShownRow.{AreShown};

    /// The columns of an alarm, by its number, as its cells show them. None where there is no such row.
    pub fn row(&self, index: u32) -> Option<&AlarmRow>
        ensures shown { (settings : Counting) (journal : Journal) → Stands self.now settings journal
            → is_valid (alarm_state journal index) ≡ true → MatchOption result ⊥ (λ row. AreShown settings journal index row.now) }
        ensures index { IfSome result (λ row. index ≤ 65535) }
        ensures spelling { IfSome result (λ row. IsSpellable (variable_kept row.now)) }
    {
        match self.rows.row(index) {
            Some(row) => Some(&row.columns),
            None => None,
        }
    }
}
