// What the columns of etherStats show that can't be set.
ghost use Rattle.rm_ether.specs.Shown.{kept_other};

use crate::counter::Counter;
use crate::row::StatisticsRow;
use rm_columns::counter_32;
use rm_status::{OtherColumns, Row};
use rm_val::Value;

/// The counters.
#[derive(Clone, Copy)]
pub(crate) struct Counters;

impl OtherColumns<StatisticsRow> for Counters {
    ghost others = { λ s rows. kept_other rows };

    fn other(&self, _index: u32, row: &Row<StatisticsRow>, column: u32) -> Value<'static> {
        let sum = row.columns.statistics.of(Counter::numbered(column));
        Value::Counter(counter_32(sum))
    }
}
