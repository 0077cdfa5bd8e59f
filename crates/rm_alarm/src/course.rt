// What a valid alarm keeps of its samples.
ghost use Rattle.std.specs.Prelude.{◌≡◌, ◌+◌, ◌*◌, ℤ, List, ◌∷◌};
ghost use Rattle.rm_acts.specs.Alarms.{difference};
ghost use Rattle.rm_acts.specs.Crossings.{crossing};
ghost use Rattle.rm_alarm.specs.Kept.{bounds_in, starting, value_read, Keeps};

use crate::hysteresis::Hysteresis;
use crate::thresholds::Thresholds;
use rm_acts::Sampled;
use rm_model::Reading;

/// How many milliseconds a second has.
const SECOND: u64 = 1000;

/// How many numbers a Counter32 has.
const COUNTER_NUMBERS: i128 = 1 << 32;

/// What a valid alarm keeps of its samples.
#[derive(Clone, Copy)]
pub struct Course {
    /// The moment of its next sample, in milliseconds.
    pub due: u64,
    /// Whether its variable is a Counter32.
    pub counter: bool,
    /// What its last sample read, and before the first what the variable read when the alarm became valid.
    pub reading: i64,
    /// What its samples have crossed.
    pub hysteresis: Hysteresis,
}

impl Course {
    /// Of an alarm that becomes valid at a moment, in milliseconds, with so many seconds between two samples, where its
    /// variable reads this.
    pub fn starting(now: u32, seconds: u32, base: Option<Reading>) -> Course
        ensures { result ≡ starting now seconds base }
    {
        let due = due_after(now, seconds);
        let hysteresis = Hysteresis::new();
        match base {
            Some(base) => Course {
                due,
                counter: base.counter,
                reading: base.value,
                hysteresis,
            },
            None => Course {
                due,
                counter: false,
                reading: 0,
                hysteresis,
            },
        }
    }

    /// Takes a sample that reads a number at a moment, in milliseconds, and tells what it crosses. `delta` says whether its
    /// value is the difference from the reading before.
    pub fn take(
        &mut self,
        thresholds: &Thresholds,
        delta: bool,
        seconds: u32,
        moment: u32,
        number: i64,
    ) -> Sampled
        ensures due { self.new.due ≡ moment + 1000 * seconds }
        ensures counter { self.new.counter ≡ self.old.counter }
        ensures reading { self.new.reading ≡ number }
        ensures crossing { (earlier : List ℤ) → Keeps self.old.hysteresis thresholds.now earlier
            → result ≡ crossing (bounds_in thresholds.now) (value_read delta self.old number ∷ earlier) }
        ensures keeps { (earlier : List ℤ) → Keeps self.old.hysteresis thresholds.now earlier
            → Keeps self.new.hysteresis thresholds.now (value_read delta self.old number ∷ earlier) }
    {
        let value = self.value_read(delta, number);
        self.due = due_after(moment, seconds);
        self.reading = number;
        self.hysteresis.take(thresholds, value)
    }

    // The value of a sample that reads a number.
    fn value_read(&self, delta: bool, number: i64) -> i128
        ensures { result ≡ value_read delta self.now number }
    {
        if delta {
            difference(self.counter, number, self.reading)
        } else {
            i128::from(number)
        }
    }
}

// When the sample is due that comes so many seconds after a moment.
fn due_after(moment: u32, seconds: u32) -> u64
    ensures { result ≡ moment + 1000 * seconds }
{
    u64::from(moment) + SECOND * u64::from(seconds)
}

// By how much a reading is above the one before, modulo 2^32 where they are a Counter32's.
fn difference(counter: bool, reading: i64, before: i64) -> i128
    ensures { result ≡ difference counter reading before }
{
    let difference = i128::from(reading) - i128::from(before);
    if counter {
        difference.rem_euclid(COUNTER_NUMBERS)
    } else {
        difference
    }
}
