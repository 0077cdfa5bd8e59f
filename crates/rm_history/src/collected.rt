// The histories that the rows of historyControl collect.
ghost use Rattle.std.specs.Prelude.{◌≡◌};
ghost use Rattle.rm_history.specs.Runs.{plan_from};
ghost use Rattle.rm_history.specs.Shown.{granted_in};

use crate::control_columns::{CONTROL_OBJECTS, ControlColumns};
use crate::counted_frame::CountedFrame;
use crate::plan::Plan;
use crate::run::{MOST_BUCKETS, Run};
use crate::samples::{SAMPLE_OBJECTS, Samples};
use rm_collect::{ByFacts, ByItself, Collected, RowColumns, SampledTables};
use rm_ether::Adding;
use rm_group::{Assigns, Passing, TableObjects, judge_read_only};
use rm_model::{State, Verdict};
use rm_nested::{InnerTable, inner_cell, next_inner_cell};
use rm_pool::Pool;
use rm_status::Row;
use rm_val::{Oid, Value};

/// The tables.
const OBJECTS: &[TableObjects] = &[CONTROL_OBJECTS, SAMPLE_OBJECTS];

#[tactic(auto, unfolding(crate::specs::Collection::history_collection))]
impl Collected for Run {
    ghost use Rattle.rm_history.specs.Collection.{history_collection};
    ghost use Rattle.rm_history.specs.Lawful.{history_lawful};

    type Columns = ControlColumns;

    type Shared = ();

    type Judged = ();

    ghost collection = { history_collection };

    fn begin(&mut self, columns: &ControlColumns, _shared: &(), now: u32) {
        self.restart(columns.source, plan_from(columns, now));
    }

    fn pass(runs: &mut Pool<Run>, _judged: &[()], passing: &Passing<'_>, _before: u32) {
        let adding = Adding::of(&passing.facts);
        let moment = passing.moment;
        runs.change_each(&CountedFrame { adding, moment });
    }

    fn other(
        _runs: &Pool<Run>,
        _index: u32,
        row: &Row<ControlColumns>,
        _column: u32,
    ) -> Value<'static> {
        Value::Int(granted(row.state, u32::from(row.columns.requested)) as i32)
    }

    fn inner_cell<'a, R: RowColumns<ControlColumns>>(
        _rows: &'a R,
        runs: &'a Pool<Run>,
        name: &Oid,
        now: u32,
    ) -> Option<Value<'a>> {
        inner_cell(&Samples { runs }, name, now)
    }

    fn inner_after<'a, R: RowColumns<ControlColumns>>(
        _rows: &'a R,
        runs: &'a Pool<Run>,
        name: &Oid,
        now: u32,
        out: &mut Oid,
    ) -> Option<Value<'a>> {
        next_inner_cell(Samples { runs }, name, now, out)
    }

    fn inner_least() -> &'static [u32] {
        SAMPLE_OBJECTS.entry
    }

    fn sampled_tables() -> SampledTables {
        SampledTables::AllTables
    }

    fn judge_inner<A: Assigns>(set: &A) -> Verdict {
        judge_read_only(set, &Samples::entry(), Samples::columns())
    }

    fn tables() -> &'static [TableObjects] {
        OBJECTS
    }

    fn least() -> &'static [u32] {
        CONTROL_OBJECTS.entry
    }

    ghost laws = { history_lawful };

    ghost spelled = { λ columns. tt };
}

impl ByFacts for Run {
    ghost use Rattle.rm_history.specs.Lawful.{unjudged, all_within};

    ghost unjudged = { unjudged };

    ghost all_within = { all_within };
}

impl ByItself for Run {
    ghost use Rattle.rm_history.specs.Lawful.{by_itself};

    ghost by_itself = { by_itself };
}

// How the history of a row with these columns is taken that begins at a moment.
fn plan_from(columns: &ControlColumns, now: u32) -> Plan
    ensures { result ≡ plan_from columns.now now }
{
    Plan {
        start: now,
        seconds: u32::from(columns.interval),
        kept: u32::from(columns.requested).min(MOST_BUCKETS),
    }
}

// How many buckets are granted to a row, none unless it is valid.
fn granted(state: State, requested: u32) -> u32
    ensures { result ≡ granted_in state requested }
{
    match state {
        State::Valid => requested.min(MOST_BUCKETS),
        _ => 0,
    }
}
