// The hosts that are reported, by the rows of their reports and their places.
ghost use Rattle.std.specs.Prelude.{◌≡◌, ◌≤◌, OnSome};
ghost use Rattle.std.specs.Option.{option_copied};
ghost use Rattle.rm_keyed.specs.declared.keyed.TheConstants.{MOST_ROWS};
ghost use Rattle.rm_val.specs.Val.{val_of};
ghost use Rattle.rm_val.specs.Spellable.{HasSpelling};
ghost use Rattle.rm_topn.specs.HostTop.{host_value};
ghost use Rattle.rm_topn.specs.Shown.{host_kept, value_shown};

use crate::course::Course;
use rm_group::TableObjects;
use rm_nested::{NumberedCells, NumberedRows};
use rm_pool::Pool;
use rm_report::Ranked;
use rm_val::Value;

/// The objects of hostTopNTable (RFC 1757, section 5).
pub(crate) const REPORT_OBJECTS: TableObjects = TableObjects {
    entry: &[1, 3, 6, 1, 2, 1, 16, 5, 2, 1],
    columns: &[1, 2, 3, 4],
};

/// The hosts that the rows of hostTopNControl report.
#[derive(Clone, Copy, Drop)]
pub(crate) struct TopRows<'a> {
    /// What the rows keep.
    pub courses: &'a Pool<Course>,
}

impl NumberedRows for TopRows<'_> {
    ghost use Rattle.std.specs.Prelude.{refl};
    ghost use Rattle.std.proofs.Math.Nat.{le-add_right};
    ghost use Rattle.rm_topn.specs.Columns.{report_columns};
    ghost use Rattle.rm_topn.specs.HostTop.{report_entry};
    ghost use Rattle.rm_topn.specs.Shown.{value_shown};

    type Part = Course;

    ghost parts = { λ s. s.courses.now };

    ghost entry = { report_entry };

    ghost columns = { report_columns };

    ghost value_of = { λ s row course place column. value_shown s.courses.now row place column };

    fn parts(&self) -> &Pool<Course> {
        self.courses
    }

    fn table() -> TableObjects
        ensures entry { result.entry.now ≡ report_entry }
        ensures columns { result.columns.now ≡ report_columns }
    {
        REPORT_OBJECTS
    }

    ghost rising = { refl };

    ghost named = { refl };

    ghost fits = { le-add_right 13 115 };
}

impl<'a> NumberedCells<'a> for TopRows<'a> {
    fn show(&self, row: u32, _course: &Course, place: u32, column: u32, _now: u32) -> Value<'a> {
        value_at(self.courses, row, place, column)
    }
}

// What a column shows of the host at a place in the report of a row, Null where there is none.
fn value_at(courses: &Pool<Course>, row: u32, place: u32, column: u32) -> Value<'_>
    requires row { row ≤ 65535 }
    ensures value { val_of result ≡ value_shown courses.now row place column }
    ensures spelling { HasSpelling (val_of result) }
{
    match host_at(courses, row, place) {
        Some(host) => host_value(row, place, host, column),
        None => Value::Null,
    }
}

// The host at a place in the report of a row. None where there is none.
fn host_at(courses: &Pool<Course>, row: u32, place: u32) -> Option<&Ranked>
    ensures value { option_copied result ≡ host_kept courses.now row place }
    ensures within { OnSome result (place ≤ MOST_ROWS) }
{
    courses.get(row)?.report.at(place)
}

// What a column shows of a host at a place in the report of a row.
fn host_value<'a>(row: u32, place: u32, host: &'a Ranked, column: u32) -> Value<'a>
    requires row { row ≤ 65535 }
    requires place { place ≤ MOST_ROWS }
    ensures value { val_of result ≡ host_value row place host.now column }
    ensures spelling { HasSpelling (val_of result) }
{
    match column {
        1 => Value::Int(row as i32),
        2 => Value::Int(place as i32),
        3 => Value::Octets(host.address.as_slice()),
        _ => Value::Int(host.rate.0.min(i32::MAX as u64) as i32),
    }
}
