// What hostTopNControl and hostTopN show, by the rows and what they keep of their reports.
ghost use Rattle.std.specs.Prelude.{◌≡◌, ◌≤◌, pos, IfSome, OnSome, IfNone};
ghost use Rattle.std.specs.Option.{option_copied, option_map};
ghost use Rattle.rm_val.specs.Val.{val_of};
ghost use Rattle.rm_val.specs.Spellable.{IsSpellable, HasSpelling};
ghost use Rattle.rm_model.specs.Cells.{IsNext, cells_of};
ghost use Rattle.rm_status.specs.Rows.{AreControlRows};
ghost use Rattle.rm_topn.specs.Control.{top_control};
ghost use Rattle.rm_topn.specs.Shown.{cells_kept, control_kept, counted, duration_of, granted_of, seconds_in, start_of, time_of, time_row, time_shown};

use crate::control_columns::{CONTROL_OBJECTS, ControlColumns, TIME};
use crate::course::Course;
use crate::reports::Reports;
use crate::top_rows::{REPORT_OBJECTS, TopRows};
use rm_columns::{ControlRow, natural};
use rm_group::{choose_nearer, instance_of, is_under};
use rm_model::State;
use rm_nested::{inner_cell, next_inner_cell};
use rm_pool::Pool;
use rm_status::{Controls, OtherColumns, Row, row_number};
use rm_val::{Oid, Value};

// The columns of hostTopNControl that can't be set, by what its rows keep.
#[derive(Drop)]
struct Others<'a> {
    courses: &'a Pool<Course>,
}

impl OtherColumns<ControlColumns> for Others<'_> {
    ghost use Rattle.rm_topn.specs.Shown.{other_shown};

    ghost others = { λ s rows. other_shown rows s.courses.now };

    fn other(&self, index: u32, row: &Row<ControlColumns>, column: u32) -> Value<'static> {
        match column {
            5 => Value::Int(duration(self.courses.get(index), natural(row.columns.seconds))),
            7 => Value::Int(granted(row)),
            _ => Value::Ticks(start(self.courses.get(index))),
        }
    }
}

// For how many seconds a report of a row runs, by what the row was set to; 0 where none began.
fn duration(course: Option<&Course>, set: u32) -> i32
    requires { set ≤ 2147483647 }
    ensures { result ≡ pos (duration_of (option_copied course.entry) set) }
{
    match course {
        Some(course) => course.duration().min(set) as i32,
        None => 0,
    }
}

// When it began, in hundredths of a second; 0 where none did.
fn start(course: Option<&Course>) -> u32
    ensures { result ≡ start_of (option_copied course.entry) }
{
    match course {
        Some(course) => course.start_time(),
        None => 0,
    }
}

// How many seconds of it are left at a moment in milliseconds; what was set where the row keeps no report.
fn time_left(course: Option<&Course>, set: u32, now: u32) -> i32
    requires { set ≤ 2147483647 }
    ensures { result ≡ pos (time_of (option_copied course.entry) set now) }
{
    match course {
        Some(course) => course.time_remaining(now).min(set) as i32,
        None => set as i32,
    }
}

// How many hosts a report of a row has at most, 0 where the row isn't valid.
fn granted(row: &Row<ControlColumns>) -> i32
    ensures { result ≡ pos (granted_of row.now) }
{
    match row.state {
        State::Valid => row.columns.plan().most as i32,
        _ => 0,
    }
}

// For how many seconds a row was set to run a report, 0 where there is no such row.
fn seconds_set(rows: &Controls<ControlColumns>, row: u32) -> u32
    ensures value { result ≡ seconds_in rows.now row }
    ensures most { result ≤ 2147483647 }
{
    match rows.get(row) {
        Some(columns) => natural(columns.seconds),
        None => 0,
    }
}

// The row of which a name is TimeRemaining. None where it is another name.
fn time_row(name: &Oid) -> Option<u32>
    ensures { result ≡ time_row name.now }
{
    let at = instance_of(name, &ControlColumns::entry(), CONTROL_OBJECTS.columns)?;
    if at.column == TIME {
        Some(row_number(&at.index))
    } else {
        None
    }
}

impl Reports {
    /// What the tables show under a name, at a moment in milliseconds. None where they show nothing.
    pub(crate) fn shown_at(&self, name: &Oid, now: u32) -> Option<Value<'_>>
        ensures value { option_map val_of result ≡ cells_kept self.now.rows self.now.courses now name.now }
        ensures spelling { IfSome result (λ value. HasSpelling (val_of value)) }
        ensures rows { AreControlRows top_control self.now.rows }
    {
        prove!(self.rows.len() <= 32);
        match self.control_at(name, now) {
            Some(value) => Some(value),
            None => inner_cell(&self.inner(), name, now),
        }
    }

    /// What the tables show under the least name above one, at a moment in milliseconds. That name is put into `out`. None where they show
    /// nothing above it; `out` is then as before.
    pub(crate) fn shown_after(&self, name: &Oid, now: u32, out: &mut Oid) -> Option<Value<'_>>
        ensures next { IsNext (cells_kept self.now.rows self.now.courses now) name.now (option_map val_of result) out.new }
        ensures stays { IfNone result (out.new ≡ out.old) }
        ensures name_spelling { OnSome result (IsSpellable out.new) }
        ensures spelling { IfSome result (λ value. HasSpelling (val_of value)) }
        ensures rows { AreControlRows top_control self.now.rows }
    {
        prove!(self.rows.len() <= 32);
        let control = self.control_after(name, now, out);
        // No host has a name below the entry of hostTopN.
        if control.is_some() && is_under(out, REPORT_OBJECTS.entry) {
            return control;
        }
        let mut other = Oid::new();
        let host = next_inner_cell(self.inner(), name, now, &mut other);
        choose_nearer(control, out, host, other)
    }

    // The hosts that the rows report.
    fn inner(&self) -> TopRows<'_>
        ensures { result.courses.now ≡ self.now.courses }
    {
        TopRows {
            courses: &self.courses,
        }
    }

    // What hostTopNControl shows under a name.
    fn control_at(&self, name: &Oid, now: u32) -> Option<Value<'_>>
        ensures value { option_map val_of result ≡ cells_of (control_kept self.now.rows self.now.courses now) name.now }
        ensures spelling { IfSome result (λ value. HasSpelling (val_of value)) }
    {
        let others = Others {
            courses: &self.courses,
        };
        let value = self.rows.cell(&others, name)?;
        Some(self.counted(name, value, now))
    }

    // What it shows under the least name above one.
    fn control_after(&self, name: &Oid, now: u32, out: &mut Oid) -> Option<Value<'_>>
        ensures next { IsNext (cells_of (control_kept self.now.rows self.now.courses now)) name.now (option_map val_of result) out.new }
        ensures stays { IfNone result (out.new ≡ out.old) }
        ensures name_spelling { OnSome result (IsSpellable out.new) }
        ensures spelling { IfSome result (λ value. HasSpelling (val_of value)) }
    {
        let others = Others {
            courses: &self.courses,
        };
        let value = self.rows.next_cell(&others, name, out)?;
        Some(self.counted(out, value, now))
    }

    // What it shows under a name, by what was set: TimeRemaining counts down.
    fn counted<'a>(&self, name: &Oid, value: Value<'a>, now: u32) -> Value<'a>
        ensures value { val_of result ≡ counted self.now.rows self.now.courses now name.now (val_of value.entry) }
        ensures spelling { HasSpelling (val_of value.entry) → HasSpelling (val_of result) }
    {
        match time_row(name) {
            Some(row) => Value::Int(self.time(row, now)),
            None => value,
        }
    }

    // What TimeRemaining shows of a row.
    fn time(&self, row: u32, now: u32) -> i32
        ensures { result ≡ pos (time_shown self.now.rows self.now.courses row now) }
    {
        time_left(self.courses.get(row), seconds_set(&self.rows, row), now)
    }
}
