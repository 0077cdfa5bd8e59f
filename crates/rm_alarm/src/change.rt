// What a Set makes of what each row keeps.
ghost use Rattle.std.specs.Prelude.{◌≡◌};
ghost use Rattle.rm_alarm.specs.Rows.{variable_with, reading_base, without_base, course_or_start, settled};

use crate::cell::variable_name;
use crate::course::Course;
use crate::given::name_given;
use crate::row::AlarmRow;
use rm_group::{Assigns, Look};
use rm_model::State;
use rm_status::Change;
use rm_val::Oid;

/// Each row remembers what the variable reads at a moment, in milliseconds, that it has with what a Set gives.
#[derive(Drop)]
pub(crate) struct ReadingBase<'a, A, L> {
    /// The Set.
    pub set: &'a A,
    /// What is read.
    pub look: &'a L,
    /// The moment.
    pub now: u32,
}

impl<A: Assigns, L: Look> Change<AlarmRow> for ReadingBase<'_, A, L> {
    ghost changed = { λ s index state row. reading_base (L.readings s.look.now s.now) (A.bindings s.set.now) index row };

    fn change(&self, index: u32, _state: State, columns: &mut AlarmRow) {
        let variable = variable_with(self.set, index, columns);
        columns.base = self.look.reading(&variable, self.now);
    }
}

/// The variable of a row with what a Set gives to it.
pub(crate) fn variable_with<A: Assigns>(set: &A, index: u32, row: &AlarmRow) -> Oid
    ensures { result ≡ variable_with (A.bindings set.now) index row.now }
{
    match name_given(set, &variable_name(index)) {
        Some(name) => name,
        None => row.variable(),
    }
}

/// Each row forgets what its variable read.
#[derive(Drop)]
pub(crate) struct Forgetting;

impl Change<AlarmRow> for Forgetting {
    ghost changed = { λ s index state row. without_base row };

    fn change(&self, _index: u32, _state: State, columns: &mut AlarmRow) {
        columns.base = None;
    }
}

/// Each row that is valid after a Set goes on with its samples, or starts them at the moment of the Set, in milliseconds. Any
/// other one keeps nothing of them.
#[derive(Drop)]
pub(crate) struct Settling {
    /// The moment.
    pub now: u32,
}

impl Change<AlarmRow> for Settling {
    ghost changed = { λ s index state row. settled s.now state row };

    fn change(&self, _index: u32, state: State, columns: &mut AlarmRow) {
        columns.course = match state {
            State::Valid => Some(course_or_start(self.now, columns)),
            _ => None,
        };
        columns.base = None;
    }
}

// What a valid row keeps of its samples.
fn course_or_start(now: u32, row: &AlarmRow) -> Course
    ensures { result ≡ course_or_start now row.now row.now.course }
{
    match row.course {
        Some(course) => course,
        None => Course::starting(now, row.seconds(), row.base),
    }
}
