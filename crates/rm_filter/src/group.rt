// The group filter, as a group of objects.
use crate::channel_row::CHANNEL_OBJECTS;
use crate::channel_table::ChannelTable;
use crate::filter_row::FILTER_OBJECTS;
use crate::filter_table::FilterTable;
use crate::filters::Filters;
use rm_group::{Assigns, Both, Commits, Group, Look, Readable, Storeless, TableObjects, Tables};
use rm_model::Verdict;
use rm_val::{Oid, Value};

/// The tables of the group.
const OBJECTS: &[TableObjects] = &[FILTER_OBJECTS, CHANNEL_OBJECTS];

impl Group for Filters {
    ghost use Rattle.rm_filter.specs.Group.{filter_cells, filters_alone, filters_together, cells_finite};
    ghost use Rattle.rm_filter.specs.Standing.{Stands, AreFine};

    ghost stands = { Stands };

    ghost clock = { λ s. 0 };

    ghost askable = { λ s moment. Unit {0} };

    ghost frames = { λ s. 0 };

    ghost cells = { λ settings journal now. filter_cells settings journal };

    ghost alone = { filters_alone };

    ghost together = { λ settings journal now readings bindings place. filters_together journal bindings place };

    ghost accepts = { λ s now bindings. AreFine s bindings };

    ghost finite = { λ settings journal now. cells_finite settings journal };

    fn least() -> &'static [u32] {
        <Both<FilterTable, ChannelTable>>::least()
    }

    fn cell(&self, name: &Oid, now: u32) -> Option<Value<'_>> {
        self.tables.cell(name, now)
    }

    fn after(&self, name: &Oid, now: u32, out: &mut Oid) -> Option<Value<'_>> {
        self.tables.after(name, now, out)
    }

    fn judge_alone<A: Assigns>(&self, set: &A) -> Verdict {
        self.tables.judge_alone(set)
    }

    fn judge_rows<A: Assigns, L: Look>(&self, set: &A, now: u32, look: &L) -> Verdict {
        self.tables.judge_rows(set, now, look)
    }
}

impl Storeless for Filters {}

impl Commits for Filters {
    fn commit<A: Assigns>(&mut self, set: &A, now: u32) {
        self.tables.commit(set, now);
    }
}

impl Tables for Filters {
    ghost use Rattle.rm_filter.specs.Group.{group_tables, are_settable, shown_listed, refused_listed};

    ghost tables = { group_tables };

    ghost can_be_set = { are_settable };

    fn tables() -> &'static [TableObjects] {
        OBJECTS
    }

    ghost shows_listed = { λ settings journal now. shown_listed settings journal };

    ghost refuses_listed = { refused_listed };
}

impl Readable for Filters {
    ghost use Rattle.rm_model.specs.Cells.{cells_of};
    ghost use Rattle.rm_acts.specs.Shown.{channels_shown};
    ghost use Rattle.rm_acts.proofs.ShownLaws.{channels_before};
    ghost use Rattle.rm_filter.specs.Shown.{channels_kept};

    ghost sampleable = { λ settings journal now. cells_of (channels_shown settings journal) };

    ghost shown = { λ s now. cells_of (channels_kept s.tables.second.rows) };

    fn value(&self, name: &Oid, now: u32) -> Option<Value<'_>> {
        self.tables.second.value(name, now)
    }

    fn shows(&self, now: u32) {
        self.tables.second.shows(now);
    }

    ghost recurring = { channels_before };
}
