// What a row of hostTopNControl asks of a report.
ghost use Rattle.std.specs.Prelude.{◌≡◌};
ghost use Rattle.rm_topn.specs.Plans.{plan_of};

use crate::control_columns::ControlColumns;
use rm_columns::natural;
use rm_report::RateBase;

/// How many hosts a report has at most, however many are asked for.
pub(crate) const MOST_GRANTED: u32 = 100;

/// What a row of hostTopNControl asks of a report that begins.
#[derive(Clone, Copy, Debug)]
pub(crate) struct Plan {
    /// The row of hostControl whose hosts are reported.
    pub host: u32,
    /// The counter by which they are compared.
    pub base: RateBase,
    /// How many of them are reported at most.
    pub most: u32,
    /// For how many seconds the report runs.
    pub seconds: u32,
}

impl ControlColumns {
    /// What the row asks of a report that begins now.
    pub fn plan(&self) -> Plan
        ensures { result ≡ plan_of self.now }
    {
        Plan {
            host: match self.host_index {
                Some(row) => natural(row),
                None => 0,
            },
            base: self.base,
            most: natural(self.requested).min(MOST_GRANTED),
            seconds: natural(self.seconds),
        }
    }
}
