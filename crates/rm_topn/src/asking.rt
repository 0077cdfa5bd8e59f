// What a Set asks of reports: which of them are to begin.
ghost use Rattle.std.specs.Prelude.{◌≡◌, ◌∷◌, [], is_some};
ghost use Rattle.std.specs.Str.{bytes_eq};
ghost use Rattle.rm_model.specs.ControlRows.{cell_name};
ghost use Rattle.rm_model.specs.Journal.{value_given};
ghost use Rattle.rm_topn.specs.Asking.{plan_in};
ghost use Rattle.rm_topn.specs.Control.{control_entry};

use crate::control_columns::{CONTROL_OBJECTS, ControlColumns, TIME};
use crate::course::Course;
use crate::plan::Plan;
use rm_group::Assigns;
use rm_pool::{Begin, Change};
use rm_status::Controls;
use rm_val::Oid;

/// A Set, as it asks reports of rows that stay valid: one of them is to begin where the Set gives TimeRemaining to its row.
#[derive(Drop)]
pub(crate) struct Asking<'a, A> {
    /// The Set.
    pub set: &'a A,
    /// The rows after it.
    pub rows: &'a Controls<ControlColumns>,
}

impl<A: Assigns> Change<Course> for Asking<'_, A> {
    ghost use Rattle.rm_topn.specs.Asking.{IsAsked};

    ghost allows = { λ s row course. Unit {0} };

    ghost makes = { λ s. IsAsked s.rows.now (A.bindings s.set.now) };

    fn change(&self, row: u32, course: &mut Course) {
        course.next = if gives_time(self.set, row) {
            plan_in(self.rows, row)
        } else {
            None
        };
    }
}

/// How what is kept begins of rows that become valid: a report is to begin where it would run for some time.
#[derive(Drop)]
pub(crate) struct Idle<'a> {
    /// The rows.
    pub rows: &'a Controls<ControlColumns>,
}

impl Begin<Course> for Idle<'_> {
    ghost use Rattle.rm_topn.specs.Asking.{IsIdle};

    ghost begun = { λ s. IsIdle s.rows.now };

    fn begin(&self, row: u32, course: &mut Course) {
        course.idle(plan_in(self.rows, row).filter(|plan| plan.seconds != 0));
    }
}

// What a row asks of a report. None where there is no such row.
fn plan_in(rows: &Controls<ControlColumns>, row: u32) -> Option<Plan>
    ensures { result ≡ plan_in rows.now row }
{
    match rows.get(row) {
        Some(columns) => Some(columns.plan()),
        None => None,
    }
}

// Whether a Set gives TimeRemaining to a row.
fn gives_time<A: Assigns>(set: &A, row: u32) -> bool
    ensures { result ≡ is_some (value_given (A.bindings set.now) (cell_name control_entry 4 (row ∷ []))) }
{
    is_given(set, &time_name(row))
}

// The name of TimeRemaining of a row.
fn time_name(row: u32) -> Oid
    ensures { result ≡ cell_name control_entry 4 (row ∷ []) }
{
    let mut name = Oid::from_slice(CONTROL_OBJECTS.entry).unwrap();
    name.push(TIME).unwrap();
    name.push(row).unwrap();
    name
}

// Whether a Set gives a value to the variable with that name.
fn is_given<A: Assigns>(set: &A, name: &Oid) -> bool
    ensures { result ≡ is_some (value_given (A.bindings set.now) name.now) }
{
    for place in 0..set.count() {
        if is_same(&set.name(place), name) {
            return true;
        }
    }
    false
}

// Whether two names are the same.
fn is_same(name: &Oid, other: &Oid) -> bool
    ensures { result ≡ bytes_eq name.now other.now }
{
    name.compare(other).is_eq()
}
