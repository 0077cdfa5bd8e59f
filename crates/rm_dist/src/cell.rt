// What the columns of protocolDistControl show that can't be set.
ghost use Rattle.rm_dist.specs.Shown.{kept_other};

use crate::row::DistributionRow;
use rm_status::{OtherColumns, Row};
use rm_val::Value;

/// That no frame is dropped, and when the row became active.
#[derive(Clone, Copy)]
pub(crate) struct Others;

impl OtherColumns<DistributionRow> for Others {
    ghost others = { λ s rows. kept_other rows };

    fn other(&self, _index: u32, row: &Row<DistributionRow>, column: u32) -> Value<'static> {
        if column == 3 {
            return Value::Counter(0);
        }
        let since = match &row.columns.tally {
            Some(tally) => tally.since,
            None => 0,
        };
        Value::Ticks(since / 10)
    }
}
