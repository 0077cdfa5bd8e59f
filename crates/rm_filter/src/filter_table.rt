// filterTable, as a group of objects.

use crate::filter_row::{FILTER_OBJECTS, FilterRow};
use rm_group::{Assigns, Commits, Group, Look, Storeless};
use rm_model::Verdict;
use rm_status::{Controls, OtherColumns, Row};
use rm_val::{Oid, Value};

/// The filters: filterTable (RFC 1757, section 5).
#[derive(Drop)]
pub struct FilterTable {
    pub(crate) rows: Controls<FilterRow>,
}

impl FilterTable {
    ghost use Rattle.std.specs.Prelude.{[]};
    ghost use Rattle.rm_filter.specs.Tables.{HasFilters};

    /// No filter.
    pub(crate) fn new() -> FilterTable
        ensures { HasFilters result [] }
    {
        FilterTable {
            rows: Controls::new(),
        }
    }
}

/// Every column of filterTable but the index can be set.
#[derive(Clone, Copy)]
struct Nothing;

impl OtherColumns<FilterRow> for Nothing {
    ghost use Rattle.rm_filter.specs.Tables.{nothing_else};

    ghost others = { λ s rows. nothing_else };

    fn other(&self, _index: u32, _row: &Row<FilterRow>, _column: u32) -> Value<'static> {
        Value::Null
    }
}

impl Group for FilterTable {
    ghost use Rattle.rm_model.specs.Cells.{cells_of};
    ghost use Rattle.rm_model.specs.ControlRows.{no_rows};
    ghost use Rattle.rm_model.specs.Judgement.{second_pass, rows_after};
    ghost use Rattle.rm_acts.specs.Filters.{filter_table};
    ghost use Rattle.rm_filter.specs.Tables.{HasFilters, filters_shown, filter_alone, AreFiltersFine};
    ghost use Rattle.rm_filter.specs.Finite.{filters_finite};

    ghost stands = { λ s settings journal. HasFilters s journal };

    ghost clock = { λ s. 0 };

    ghost askable = { λ s moment. Unit {0} };

    ghost frames = { λ s. 0 };

    ghost cells = { λ settings journal now. cells_of (filters_shown journal) };

    ghost alone = { filter_alone };

    ghost together = { λ settings journal now readings bindings place. second_pass filter_table (rows_after filter_table no_rows journal) bindings place };

    ghost accepts = { λ s now. AreFiltersFine s };

    ghost finite = { λ settings journal now. filters_finite journal };

    fn least() -> &'static [u32] {
        FILTER_OBJECTS.entry
    }

    fn cell(&self, name: &Oid, _now: u32) -> Option<Value<'_>> {
        self.rows.cell(&Nothing, name)
    }

    fn after(&self, name: &Oid, _now: u32, out: &mut Oid) -> Option<Value<'_>> {
        self.rows.next_cell(&Nothing, name, out)
    }

    fn judge_alone<A: Assigns>(&self, set: &A) -> Verdict {
        self.rows.judge_alone(set)
    }

    fn judge_rows<A: Assigns, L: Look>(&self, set: &A, _now: u32, _look: &L) -> Verdict {
        self.rows.judge_rows(set)
    }
}

impl Storeless for FilterTable {}

impl Commits for FilterTable {
    fn commit<A: Assigns>(&mut self, set: &A, _now: u32) {
        prove!(self.rows.len() <= 32);
        self.rows.commit(set);
    }
}
