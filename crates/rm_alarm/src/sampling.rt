// The samples of alarms.
ghost use Rattle.std.specs.Prelude.{◌≡◌, ℕ, ◌<◌, ◌≤◌, [], ◌∷◌, Some};
ghost use Rattle.std.specs.Option.{option_map};
ghost use Rattle.rm_model.specs.Counting.{Counting};
ghost use Rattle.rm_model.specs.Journal.{Journal, samples};
ghost use Rattle.rm_acts.specs.Alarms.{variable_of, sampled};
ghost use Rattle.rm_status.specs.declared.row.Row.{Row};
ghost use Rattle.rm_status.specs.Rows.{row_in};
ghost use Rattle.rm_alarm.specs.declared.row.AlarmRow.{AlarmRow as Columns};
ghost use Rattle.rm_alarm.specs.Rows.{variable_kept};
ghost use Rattle.rm_alarm.specs.Standing.{Stands, AreBased};
ghost use Rattle.rm_alarm.specs.Group.{due_in};
ghost use Rattle.rm_alarm.specs.Left.{samples_left};
ghost use Rattle.rm_alarm.specs.Taking.{HasTaken};

use crate::alarms::Alarms;
use crate::due::{following, is_of};
use crate::row::AlarmRow;
use rm_acts::Sampled;
use rm_group::Look;
use rm_model::Reading;
use rm_status::Controls;

impl Alarms {
    /// No alarms.
    pub fn new() -> Alarms
        ensures stands { (settings : Counting) → Stands result settings [] }
        ensures based { (settings : Counting) → AreBased result settings [] }
    {
        Alarms {
            rows: Controls::new(),
            next: None,
        }
    }

    /// Takes the sample of an alarm that is due at a moment, in milliseconds, and tells what it comes to. The row of an alarm
    /// whose variable is gone is removed.
    pub fn sample<L: Look>(&mut self, index: u32, moment: u32, look: &L) -> Sampled
        requires { due_in self.old index ≡ Some moment }
        ensures stands { (settings : Counting) (journal : Journal) → Stands self.old settings journal
            → AreBased self.old settings journal
            → let number = option_map (λ reading. reading.value) (L.readings look.now moment (variable_of journal index)) in
            Stands self.new settings (samples moment index number ∷ journal) }
        ensures based { (settings : Counting) (journal : Journal) → Stands self.old settings journal
            → AreBased self.old settings journal
            → let number = option_map (λ reading. reading.value) (L.readings look.now moment (variable_of journal index)) in
            AreBased self.new settings (samples moment index number ∷ journal) }
        ensures result { (settings : Counting) (journal : Journal) → Stands self.old settings journal
            → AreBased self.old settings journal
            → let number = option_map (λ reading. reading.value) (L.readings look.now moment (variable_of journal index)) in
            result ≡ sampled settings journal moment index number }
        ensures fewer { (latest : ℕ) → moment ≤ latest → samples_left self.new latest < samples_left self.old latest }
    {
        prove!(self.rows.len() <= 32);
        let first = is_of(self.next, index);
        match read(&self.rows, index, moment, look) {
            Some(reading) => {
                let sampled = take(&mut self.rows, index, moment, reading.value);
                self.next = following(&self.rows, first, moment, index);
                sampled
            }
            None => {
                self.rows.remove(index);
                self.next = following(&self.rows, first, moment, index);
                Sampled::Gone
            }
        }
    }
}

// What the variable of a row reads at a moment, in milliseconds.
fn read<L: Look>(rows: &Controls<AlarmRow>, index: u32, moment: u32, look: &L) -> Option<Reading>
    ensures { (row : Row Columns) → row_in rows.now index ≡ Some row
        → result ≡ L.readings look.now moment (variable_kept row.columns) }
{
    match rows.get(index) {
        Some(row) => row.reading(moment, look),
        None => None,
    }
}

// Has a row take a sample that reads a number at a moment, in milliseconds.
fn take(rows: &mut Controls<AlarmRow>, index: u32, moment: u32, number: i64) -> Sampled
    ensures { HasTaken rows.old rows.new index moment number result }
{
    match rows.get_mut(index) {
        Some(row) => row.take(moment, number),
        None => Sampled::Quiet,
    }
}
