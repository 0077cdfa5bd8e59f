// Which sample is due next.
ghost use Rattle.std.specs.Prelude.{◌≡◌, true, Some};
ghost use Rattle.rm_acts.specs.Alarms.{IsNextDue, nearer};
ghost use Rattle.rm_alarm.specs.Due.{due_at, is_of, AreBehind};

use crate::alarms::Alarms;
use crate::row::AlarmRow;
use rm_group::{Due, FallsDue, SAMPLES};
use rm_status::Controls;

/// The sample that is taken next of the alarms with these rows: its moment, in milliseconds, and the number of the alarm.
pub(crate) fn earliest(rows: &Controls<AlarmRow>) -> Option<(u64, u32)>
    ensures { IsNextDue (due_at rows.now) result }
{
    prove!(rows.len() <= 32);
    let mut next = None;
    let mut last = 0;
    while let Some(index) = rows.after(last) {
        next = nearer(next, due(rows, index), index);
        last = index;
    }
    next
}

/// The same once an alarm took its sample at a moment, in milliseconds. `first` says that it was the one that came next: then the one
/// above it often comes next, and the others aren't looked at.
pub(crate) fn following(
    rows: &Controls<AlarmRow>,
    first: bool,
    moment: u32,
    last: u32,
) -> Option<(u64, u32)>
    requires { first ≡ true → AreBehind (due_at rows.now) moment last }
    ensures { IsNextDue (due_at rows.now) result }
{
    if first {
        if let Some(index) = rows.after(last) {
            if is_due(due(rows, index), moment) {
                return Some((u64::from(moment), index));
            }
        }
    }
    earliest(rows)
}

/// Whether the sample that is taken next is one of this alarm.
pub(crate) fn is_of(next: Option<(u64, u32)>, index: u32) -> bool
    ensures { result ≡ is_of next index }
{
    match next {
        Some((_, number)) => number == index,
        None => false,
    }
}

impl FallsDue for Alarms {
    ghost use Rattle.rm_alarm.specs.Left.{IsSampleDue, samples_left, none_ends};

    ghost falls_due = { IsSampleDue };

    ghost left = { samples_left };

    fn next_due(&self) -> Option<Due> {
        match self.next {
            Some((moment, number)) => Some(Due {
                moment,
                kind: SAMPLES,
                number,
            }),
            None => None,
        }
    }

    ghost asked = { λ s moment. none_ends s moment };
}

// When the next sample of an alarm is due, None where it isn't valid.
fn due(rows: &Controls<AlarmRow>, index: u32) -> Option<u64>
    ensures { result ≡ due_at rows.now index }
{
    match rows.get(index)?.course {
        Some(course) => Some(course.due),
        None => None,
    }
}

// Whether a sample is due at this moment.
fn is_due(due: Option<u64>, moment: u32) -> bool
    ensures { result ≡ true → due ≡ Some moment }
{
    match due {
        Some(due) => due == u64::from(moment),
        None => false,
    }
}

// The nearer of a sample and the one of a higher alarm.
fn nearer(next: Option<(u64, u32)>, due: Option<u64>, index: u32) -> Option<(u64, u32)>
    ensures { result ≡ nearer next due index }
{
    match (next, due) {
        (Some((moment, other)), Some(due)) => {
            if due < moment {
                Some((due, index))
            } else {
                Some((moment, other))
            }
        }
        (None, Some(due)) => Some((due, index)),
        (next, None) => next,
    }
}
