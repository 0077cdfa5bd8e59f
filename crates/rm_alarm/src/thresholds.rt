// The columns of an alarm by which samples cross.
ghost use Rattle.std.specs.Prelude.{◌≡◌};
ghost use Rattle.rm_acts.specs.Crossings.{is_high, is_low, may_rise_first, may_fall_first};
ghost use Rattle.rm_alarm.specs.Kept.{bounds_in};

use crate::startup_alarm::StartupAlarm;

/// The columns of an alarm by which its samples cross (RFC 1757, section 5).
#[derive(Clone, Copy)]
pub struct Thresholds {
    /// alarmStartupAlarm
    pub startup: StartupAlarm,
    /// alarmRisingThreshold
    pub rising: i32,
    /// alarmFallingThreshold
    pub falling: i32,
}

impl Thresholds {
    /// Whether a value is at or above the rising threshold.
    pub fn is_high(&self, value: i128) -> bool
        ensures { result ≡ is_high (bounds_in self.now) value }
    {
        i128::from(self.rising) <= value
    }

    /// Whether a value is at or below the falling threshold.
    pub fn is_low(&self, value: i128) -> bool
        ensures { result ≡ is_low (bounds_in self.now) value }
    {
        value <= i128::from(self.falling)
    }

    /// Whether a first sample may cross the rising threshold.
    pub fn may_rise_first(&self) -> bool
        ensures { result ≡ may_rise_first (bounds_in self.now) }
    {
        match self.startup {
            StartupAlarm::Rising | StartupAlarm::RisingOrFalling => true,
            StartupAlarm::Falling => false,
        }
    }

    /// Whether a first sample may cross the falling threshold.
    pub fn may_fall_first(&self) -> bool
        ensures { result ≡ may_fall_first (bounds_in self.now) }
    {
        match self.startup {
            StartupAlarm::Falling | StartupAlarm::RisingOrFalling => true,
            StartupAlarm::Rising => false,
        }
    }
}
