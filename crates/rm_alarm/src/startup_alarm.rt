// Which thresholds a first sample may cross.
ghost use Rattle.rm_alarm.specs.StartupAlarm.{numbering};

use rm_columns::Numbered;

/// Which thresholds a first sample may cross (RFC 1757, alarmStartupAlarm).
#[derive(Clone, Copy, Debug, PartialEq, Eq)]
pub enum StartupAlarm {
    /// risingAlarm
    Rising = 1,
    /// fallingAlarm
    Falling = 2,
    /// risingOrFallingAlarm
    RisingOrFalling = 3,
}

impl Numbered for StartupAlarm {
    ghost numbering = { numbering };

    fn variants() -> &'static [StartupAlarm] {
        &[Self::RisingOrFalling, Self::Rising, Self::Falling]
    }

    fn number(self) -> i32 {
        self as i32
    }
}
