// The traps of alarms.
ghost use Rattle.std.specs.Prelude.{◌≡◌};
ghost use Rattle.rm_agent.specs.Notifications.{trap_of};

use rm_alarm::Sampled;
use rm_alarm::column::{FALLING_THRESHOLD, RISING_THRESHOLD};
use rm_val::Oid;

/// A trap of an alarm (RFC 1757, section 5).
#[derive(Drop)]
pub(crate) struct AlarmTrap {
    /// The name of its kind.
    pub kind: Oid,
    /// The number of the column with the threshold that was crossed.
    pub threshold_column: u32,
}

/// The trap of a sample that crosses a threshold: risingAlarm, or fallingAlarm. None where it crosses none.
pub(crate) fn trap_of(comes: Sampled) -> Option<AlarmTrap>
    ensures { result ≡ trap_of comes }
{
    match comes {
        Sampled::Rising => Some(AlarmTrap {
            kind: Oid::from_slice(&[1, 3, 6, 1, 2, 1, 16, 0, 1]).unwrap(),
            threshold_column: RISING_THRESHOLD,
        }),
        Sampled::Falling => Some(AlarmTrap {
            kind: Oid::from_slice(&[1, 3, 6, 1, 2, 1, 16, 0, 2]).unwrap(),
            threshold_column: FALLING_THRESHOLD,
        }),
        Sampled::Quiet | Sampled::Gone => None,
    }
}
