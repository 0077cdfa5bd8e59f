// The distribution, as a group of objects.
use crate::cell::Others;
use crate::distribution::Distribution;
use crate::row::{CONTROL_OBJECTS, DistributionRow};
use crate::stats::{Counted, STATS_OBJECTS};
use rm_group::{Assigns, Group, Look, Readable, Storeless, TableObjects, Tables};
use rm_model::Verdict;
use rm_nested::{cell_of_both, judge_both, next_of_both};
use rm_val::{Oid, Value};

/// The tables of the group.
const OBJECTS: &[TableObjects] = &[CONTROL_OBJECTS, STATS_OBJECTS];

impl Group for Distribution {
    ghost use Rattle.rm_model.specs.ControlRows.{no_rows};
    ghost use Rattle.rm_model.specs.Judgement.{second_pass, rows_after};
    ghost use Rattle.rm_dist.specs.Control.{dist_control};
    ghost use Rattle.rm_dist.specs.DistStats.{dist_cells};
    ghost use Rattle.rm_dist.specs.Finite.{dist_finite};
    ghost use Rattle.rm_dist.specs.Group.{dist_alone, AreFine, Stands};

    ghost stands = { Stands };

    ghost clock = { λ s. s.last };

    ghost askable = { λ s moment. Unit {0} };

    ghost frames = { λ s. s.frames };

    ghost cells = { λ settings journal now. dist_cells settings journal };

    ghost alone = { dist_alone };

    ghost together = { λ settings journal now readings bindings place. second_pass dist_control (rows_after dist_control no_rows journal) bindings place };

    ghost accepts = { λ s now. AreFine s };

    ghost finite = { λ settings journal now. dist_finite settings journal };

    fn least() -> &'static [u32] {
        CONTROL_OBJECTS.entry
    }

    fn cell(&self, name: &Oid, now: u32) -> Option<Value<'_>> {
        prove!(self.rows.len() <= 32);
        self.shown_at(name, now)
    }

    fn after(&self, name: &Oid, now: u32, out: &mut Oid) -> Option<Value<'_>> {
        prove!(self.rows.len() <= 32);
        let rows = &self.rows;
        next_of_both(rows, &Others, Counted { rows }, name, now, out)
    }

    fn judge_alone<A: Assigns>(&self, set: &A) -> Verdict {
        judge_both::<DistributionRow, Counted<'_>, A>(&self.rows, set)
    }

    fn judge_rows<A: Assigns, L: Look>(&self, set: &A, _now: u32, _look: &L) -> Verdict {
        self.rows.judge_rows(set)
    }
}

impl Storeless for Distribution {}

impl Tables for Distribution {
    ghost use Rattle.rm_model.specs.Cells.{cells_of};
    ghost use Rattle.rm_group.specs.Listed.{is_settable, of_table, with_table, beside_listed};
    ghost use Rattle.std.specs.Prelude.{[], ◌∷◌};
    ghost use Rattle.rm_dist.specs.Columns.{control_columns};
    ghost use Rattle.rm_dist.specs.Control.{dist_control};
    ghost use Rattle.rm_dist.specs.DistStats.{control_table, stats_table};
    ghost use Rattle.rm_dist.specs.Group.{dist_tables, stats_listed};

    ghost tables = { dist_tables };

    ghost can_be_set = { is_settable dist_control };

    fn tables() -> &'static [TableObjects] {
        OBJECTS
    }

    ghost shows_listed = { λ settings journal now.
        with_table (control_table journal) (stats_listed ∷ []) (cells_of (stats_table settings journal)) (of_table (stats_table settings journal)) };

    ghost refuses_listed = { beside_listed dist_control control_columns stats_listed };
}

impl Readable for Distribution {
    ghost use Rattle.std.specs.Prelude.{refl};
    ghost use Rattle.rm_dist.specs.DistStats.{dist_cells};
    ghost use Rattle.rm_dist.specs.Shown.{cells_kept};

    ghost sampleable = { λ settings journal now. dist_cells settings journal };

    ghost shown = { λ s now. cells_kept s.rows };

    fn value(&self, name: &Oid, now: u32) -> Option<Value<'_>> {
        self.shown_at(name, now)
    }

    fn shows(&self, _now: u32) {
        prove!(self.rows.len() <= 32);
    }

    ghost recurring = { λ settings one other journal alike now name. refl };
}
