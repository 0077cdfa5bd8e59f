// What the samples of an alarm have crossed.
ghost use Rattle.std.specs.Prelude.{◌≡◌, ℤ, List, [], ◌∷◌};
ghost use Rattle.rm_acts.specs.Crossings.{comes_to, crossing, is_high, rising_of, falling_of};
ghost use Rattle.rm_alarm.specs.declared.thresholds.Thresholds.{Thresholds};
ghost use Rattle.rm_alarm.specs.Kept.{bounds_in, nothing_crossed, Keeps};

use crate::thresholds::Thresholds;
use rm_acts::Sampled;

/// The last sample of an alarm, and which crossings are in force: since which no sample reached the other threshold.
#[derive(Clone, Copy)]
pub struct Hysteresis {
    /// The value of the last sample, None before the first.
    pub last: Option<i128>,
    /// Whether a rising crossing is in force.
    pub risen: bool,
    /// Whether a falling crossing is in force.
    pub fallen: bool,
}

impl Hysteresis {
    /// Before the first sample.
    pub fn new() -> Hysteresis
        ensures value { result ≡ nothing_crossed }
        ensures keeps { (thresholds : Thresholds) → Keeps result thresholds [] }
    {
        Hysteresis {
            last: None,
            risen: false,
            fallen: false,
        }
    }

    /// Takes a sample of that value, and tells what it crosses.
    pub fn take(&mut self, thresholds: &Thresholds, value: i128) -> Sampled
        ensures crossing { (earlier : List ℤ) → Keeps self.old thresholds.now earlier
            → result ≡ crossing (bounds_in thresholds.now) (value ∷ earlier) }
        ensures keeps { (earlier : List ℤ) → Keeps self.old thresholds.now earlier
            → Keeps self.new thresholds.now (value ∷ earlier) }
    {
        let high = thresholds.is_high(value);
        let low = thresholds.is_low(value);
        let rises = high && self.comes_up(thresholds) && !self.risen;
        let falls = low && self.comes_down(thresholds, high) && !self.fallen;
        self.risen = rises || !low && self.risen;
        self.fallen = falls || !high && self.fallen;
        self.last = Some(value);
        if rises {
            Sampled::Rising
        } else if falls {
            Sampled::Falling
        } else {
            Sampled::Quiet
        }
    }

    // Whether the last sample was below the rising threshold, or the first one may cross it.
    fn comes_up(&self, thresholds: &Thresholds) -> bool
        ensures { (value : ℤ) (earlier : List ℤ) → Keeps self.now thresholds.now earlier
            → result ≡ comes_to (rising_of (bounds_in thresholds.now)) value earlier }
    {
        match self.last {
            Some(last) => !thresholds.is_high(last),
            None => thresholds.may_rise_first(),
        }
    }

    // Whether the last sample was above the falling threshold, or the first one may cross it. `high` says that the sample now
    // is at or above the rising threshold.
    fn comes_down(&self, thresholds: &Thresholds, high: bool) -> bool
        ensures { (value : ℤ) (earlier : List ℤ) → Keeps self.now thresholds.now earlier
            → high ≡ is_high (bounds_in thresholds.now) value
            → result ≡ comes_to (falling_of (bounds_in thresholds.now)) value earlier }
    {
        match self.last {
            Some(last) => !thresholds.is_low(last),
            None => thresholds.may_fall_first() && !(thresholds.may_rise_first() && high),
        }
    }
}
