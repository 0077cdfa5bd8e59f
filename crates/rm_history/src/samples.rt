// The buckets that are shown.
ghost use Rattle.std.specs.Prelude.{◌≡◌, ◌<◌, ◌≤◌, ◌^◌};
ghost use Rattle.rm_val.specs.Val.{val_of};
ghost use Rattle.rm_val.specs.Spellable.{HasSpelling};
ghost use Rattle.rm_ether.specs.Standing.{counter_of};
ghost use Rattle.rm_ether.specs.declared.counter.Counter.TheVariants.{Octets, Pkts};
ghost use Rattle.rm_history.specs.Buckets.{begin_of, utilization};
ghost use Rattle.rm_history.specs.Columns.{counter_in};
ghost use Rattle.rm_history.specs.Shown.{bucket_value};

use crate::plan::Plan;
use crate::run::Run;
use rm_columns::counter_32;
use rm_ether::{Counter, Statistics};
use rm_group::TableObjects;
use rm_nested::{NumberedCells, NumberedRows};
use rm_pool::Pool;
use rm_val::Value;

/// The objects of etherHistory (RFC 1757, section 5): etherHistoryIndex, etherHistorySampleIndex, etherHistoryIntervalStart, the
/// counters, and etherHistoryUtilization.
pub(crate) const SAMPLE_OBJECTS: TableObjects = TableObjects {
    entry: &[1, 3, 6, 1, 2, 1, 16, 2, 2, 1],
    columns: &[1, 2, 3, 4, 5, 6, 7, 8, 9, 10, 11, 12, 13, 14, 15],
};

/// A utilization of 100 percent, in hundredths of a percent.
const MOST_UTILIZATION: u128 = 10_000;

/// The buckets that histories show, by the rows of the histories and their numbers.
#[derive(Clone, Copy, Drop)]
pub(crate) struct Samples<'a> {
    /// The histories.
    pub runs: &'a Pool<Run>,
}

impl NumberedRows for Samples<'_> {
    ghost use Rattle.std.specs.Prelude.{refl};
    ghost use Rattle.std.proofs.Math.Nat.{le-add_right};
    ghost use Rattle.rm_history.specs.Columns.{sample_columns};
    ghost use Rattle.rm_history.specs.EtherHistory.{sample_entry};

    type Part = Run;

    ghost parts = { λ s. s.runs.now };

    ghost entry = { sample_entry };

    ghost columns = { sample_columns };

    ghost value_of = { λ s. bucket_value };

    fn parts(&self) -> &Pool<Run> {
        self.runs
    }

    fn table() -> TableObjects
        ensures entry { result.entry.now ≡ sample_entry }
        ensures columns { result.columns.now ≡ sample_columns }
    {
        SAMPLE_OBJECTS
    }

    ghost rising = { refl };

    ghost named = { refl };

    ghost fits = { le-add_right 13 115 };
}

impl<'a> NumberedCells<'a> for Samples<'a> {
    fn show(&self, row: u32, run: &Run, bucket: u32, column: u32, _now: u32) -> Value<'a> {
        value_of(row, run, bucket, column)
    }
}

// What a column of a bucket shows.
fn value_of(row: u32, run: &Run, bucket: u32, column: u32) -> Value<'static>
    requires row { row ≤ 65535 }
    requires bucket { bucket < 2 ^ 31 }
    requires begins { begin_of run.now.plan bucket < 2 ^ 32 }
    ensures value { val_of result ≡ bucket_value row run.now bucket column }
    ensures spelling { HasSpelling (val_of result) }
{
    match column {
        1 => Value::Int(row as i32),
        2 => Value::Int(bucket as i32),
        3 => Value::Ticks(begin_of(run.plan, bucket) / 10),
        15 => Value::Int(utilization(&run.bucket(bucket), run.plan.seconds) as i32),
        _ => Value::Counter(counter_32(run.bucket(bucket).of(counter_in(column)))),
    }
}

// The counter in a column: that of etherStats in the column before.
fn counter_in(column: u32) -> Counter
    ensures { result ≡ counter_in column }
{
    Counter::numbered(column.saturating_sub(1))
}

// The moment in milliseconds at which a bucket begins.
fn begin_of(plan: Plan, bucket: u32) -> u32
    requires seconds { plan.seconds ≤ 3600 }
    requires fits { begin_of plan bucket < 2 ^ 32 }
    ensures { result ≡ begin_of plan bucket }
{
    let length = 1000 * plan.seconds;
    plan.start + length * bucket.saturating_sub(1)
}

// The utilization of an Ethernet over so many seconds by what was counted, in hundredths of a percent (RFC 1757,
// etherHistoryUtilization).
fn utilization(statistics: &Statistics, seconds: u32) -> u32
    requires { 1 ≤ seconds }
    ensures value { result ≡ utilization (counter_of statistics.now Pkts) (counter_of statistics.now Octets) seconds }
    ensures most { result ≤ 10000 }
{
    let packets = u128::from(statistics.of(Counter::Pkts));
    let octets = u128::from(statistics.of(Counter::Octets));
    let hundredths = (20 * packets + octets) / (125 * u128::from(seconds));
    hundredths.min(MOST_UTILIZATION) as u32
}
