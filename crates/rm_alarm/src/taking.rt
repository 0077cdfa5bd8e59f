// What a row tells of its samples, and what a sample makes of it.
ghost use Rattle.std.specs.Prelude.{◌≡◌, Some};
ghost use Rattle.rm_acts.specs.Alarms.{saturated};
ghost use Rattle.rm_alarm.specs.declared.course.Course.{Course as Kept};
ghost use Rattle.rm_alarm.specs.Rows.{interval_kept, variable_kept, delta_kept};
ghost use Rattle.rm_alarm.specs.Shown.{last_value};
ghost use Rattle.rm_alarm.specs.Taking.{Took};

use crate::course::Course;
use crate::row::AlarmRow;
use crate::sample_type::SampleType;
use rm_acts::Sampled;
use rm_group::Look;
use rm_model::Reading;
use rm_val::Oid;

impl AlarmRow {
    /// The variable, 0.0 where it wasn't set.
    pub fn variable(&self) -> Oid
        ensures { result ≡ variable_kept self.now }
    {
        match &self.variable {
            Some(name) => name.copied(),
            None => Oid::from_slice(&[0, 0]).unwrap(),
        }
    }

    /// What its variable reads at a moment, in milliseconds.
    pub fn reading<L: Look>(&self, moment: u32, look: &L) -> Option<Reading>
        ensures { result ≡ L.readings look.now moment (variable_kept self.now) }
    {
        match &self.variable {
            Some(name) => look.reading(name, moment),
            None => look.reading(&self.variable(), moment),
        }
    }

    /// alarmValue: the value of the last sample, 0 where there is none.
    pub fn value(&self) -> i32
        ensures { result ≡ saturated (last_value self.now.course) }
    {
        saturated(last_value(&self.course))
    }

    /// How many seconds are between two samples, 0 where that wasn't set.
    pub fn seconds(&self) -> u32
        ensures { result ≡ interval_kept self.now }
    {
        self.interval.unwrap_or(0).unsigned_abs()
    }

    // Whether the value of a sample is the difference from the reading before.
    fn is_delta(&self) -> bool
        ensures { result ≡ delta_kept self.now }
    {
        match self.sample_type {
            SampleType::Absolute => false,
            SampleType::Delta => true,
        }
    }

    /// Takes a sample that reads a number at a moment, in milliseconds, and tells what it crosses: nothing where the row keeps
    /// nothing of its samples.
    pub fn take(&mut self, moment: u32, number: i64) -> Sampled
        ensures columns { self.new ≡ record self.old { course = self.new.course } }
        ensures course { (course : Kept) → self.old.course ≡ Some course
            → (after : Kept) × (self.new.course ≡ Some after) × Took self.old course moment number after result }
    {
        let Some(mut course) = self.course else {
            return Sampled::Quiet;
        };
        let delta = self.is_delta();
        let sampled = course.take(&self.thresholds, delta, self.seconds(), moment, number);
        self.course = Some(course);
        sampled
    }
}

// The value of the last sample, 0 where there is none.
fn last_value(course: &Option<Course>) -> i128
    ensures { result ≡ last_value course.now }
{
    match course {
        Some(course) => course.hysteresis.last.unwrap_or(0),
        None => 0,
    }
}

// A number as an INTEGER shows it: the nearest one of 32 bits with a sign.
fn saturated(value: i128) -> i32
    ensures { result ≡ saturated value }
{
    value.clamp(i128::from(i32::MIN), i128::from(i32::MAX)) as i32
}
