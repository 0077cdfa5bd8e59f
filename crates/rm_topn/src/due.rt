// The report that ends next.
ghost use Rattle.std.specs.Prelude.{◌≡◌};
ghost use Rattle.rm_group.specs.Due.{IsFirst};
ghost use Rattle.rm_pool.specs.Pools.{IsOfValid};
ghost use Rattle.rm_topn.specs.Due.{IsEnd, due_end, end_in};

use crate::control_columns::ControlColumns;
use crate::course::Course;
use crate::reports::Reports;
use rm_group::{Due, FallsDue, sooner};
use rm_pool::Pool;
use rm_status::Controls;

/// The kind of the ends of reports, which is 0: at a moment they come before the samples of alarms.
pub const REPORTS: u32 = 0;

impl FallsDue for Reports {
    ghost use Rattle.rm_topn.specs.Due.{IsEndDue, reports_left, are_asked};

    ghost falls_due = { IsEndDue };

    ghost left = { reports_left };

    /// It costs a look at each row, of which there are 16 at most.
    fn next_due(&self) -> Option<Due> {
        first_end(&self.rows, &self.courses)
    }

    ghost asked = { are_asked };
}

// The end that comes first of the reports of these rows: a look at each.
fn first_end(rows: &Controls<ControlColumns>, courses: &Pool<Course>) -> Option<Due>
    requires { IsOfValid courses.now rows.now }
    ensures { IsFirst (IsEnd (end_in courses.now)) result }
{
    prove!(rows.len() <= 32);
    let mut next = None;
    let mut last = 0;
    while let Some(row) = rows.after(last) {
        next = sooner(next, due_end(courses, row));
        last = row;
    }
    next
}

// The end of the report of a row. None where none runs.
fn due_end(courses: &Pool<Course>, row: u32) -> Option<Due>
    ensures { result ≡ due_end courses.now row }
{
    let moment = courses.get(row)?.end_ahead()?;
    Some(Due {
        moment,
        kind: REPORTS,
        number: row,
    })
}
