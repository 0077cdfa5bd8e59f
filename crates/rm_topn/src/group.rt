// The reports, as a group of objects.

use crate::control_columns::{CONTROL_OBJECTS, ControlColumns};
use crate::reports::Reports;
use crate::top_rows::{REPORT_OBJECTS, TopRows};
use rm_group::{Assigns, Denied, Group, Look, Readable, Stores, TableObjects, Tables};
use rm_model::Verdict;
use rm_nested::judge_both;
use rm_val::{Oid, Value};
use std::alloc::Global;

/// The tables of the group.
const OBJECTS: &[TableObjects] = &[CONTROL_OBJECTS, REPORT_OBJECTS];

impl Group for Reports {
    ghost use Rattle.rm_model.specs.ControlRows.{no_rows};
    ghost use Rattle.rm_model.specs.Judgement.{second_pass, rows_after};
    ghost use Rattle.rm_topn.specs.Control.{top_control};
    ghost use Rattle.rm_topn.specs.Finite.{top_finite};
    ghost use Rattle.rm_topn.specs.Group.{top_alone, AreFine};
    ghost use Rattle.rm_topn.specs.Held.{AreAskable};
    ghost use Rattle.rm_topn.specs.HostTop.{top_cells};
    ghost use Rattle.rm_topn.specs.Standing.{Stands};

    ghost stands = { Stands };

    ghost clock = { λ s. s.last };

    ghost askable = { λ s. AreAskable s.courses };

    ghost frames = { λ s. s.frames };

    ghost cells = { top_cells };

    ghost alone = { top_alone };

    ghost together = { λ settings journal now readings bindings place. second_pass top_control (rows_after top_control no_rows journal) bindings place };

    ghost accepts = { λ s now. AreFine s };

    ghost finite = { top_finite };

    fn least() -> &'static [u32] {
        CONTROL_OBJECTS.entry
    }

    fn cell(&self, name: &Oid, now: u32) -> Option<Value<'_>> {
        self.shown_at(name, now)
    }

    fn after(&self, name: &Oid, now: u32, out: &mut Oid) -> Option<Value<'_>> {
        self.shown_after(name, now, out)
    }

    fn judge_alone<A: Assigns>(&self, set: &A) -> Verdict {
        judge_both::<ControlColumns, TopRows<'_>, A>(&self.rows, set)
    }

    fn judge_rows<A: Assigns, L: Look>(&self, set: &A, _now: u32, _look: &L) -> Verdict {
        self.rows.judge_rows(set)
    }
}

impl Stores for Reports {
    ghost use Rattle.rm_model.specs.ControlRows.{no_rows};
    ghost use Rattle.rm_model.specs.Judgement.{rows_after};
    ghost use Rattle.rm_model.specs.Reserves.{Reserves};
    ghost use Rattle.rm_topn.specs.Control.{top_control};
    ghost use Rattle.rm_topn.specs.Group.{IsPrepared, IsReleased, IsStocked};

    ghost stocked = { IsStocked };

    ghost reserves = { λ settings journal bindings index. Reserves top_control (rows_after top_control no_rows journal) bindings index };

    ghost prepared = { λ s now. IsPrepared s };

    ghost released = { IsReleased };

    fn prepare<A: Assigns, L: Look>(
        &mut self,
        alloc: Global,
        set: &A,
        _now: u32,
        _look: &L,
    ) -> Result<(), Denied> {
        self.courses.make_room(alloc, &self.rows, set)
    }

    fn discard(&mut self) {
        self.give_back();
    }
}

impl Tables for Reports {
    ghost use Rattle.std.specs.Prelude.{[], ◌∷◌};
    ghost use Rattle.rm_model.specs.Cells.{cells_of};
    ghost use Rattle.rm_topn.specs.Columns.{control_columns};
    ghost use Rattle.rm_topn.specs.Control.{top_control};
    ghost use Rattle.rm_topn.specs.Group.{report_listed, top_tables};
    ghost use Rattle.rm_topn.specs.HostTop.{control_table, report_table};
    ghost use Rattle.rm_group.specs.Listed.{is_settable, of_table, with_table, beside_listed};

    ghost tables = { top_tables };

    ghost can_be_set = { is_settable top_control };

    fn tables() -> &'static [TableObjects] {
        OBJECTS
    }

    ghost shows_listed = { λ settings journal now.
        with_table (control_table journal now) (report_listed ∷ []) (cells_of (report_table settings journal now)) (of_table (report_table settings journal now)) };

    ghost refuses_listed = { beside_listed top_control control_columns report_listed };
}

impl Readable for Reports {
    ghost use Rattle.std.specs.Prelude.{refl};
    ghost use Rattle.rm_topn.specs.HostTop.{top_cells};
    ghost use Rattle.rm_topn.specs.Shown.{cells_kept};

    ghost sampleable = { top_cells };

    ghost shown = { λ s now. cells_kept s.rows s.courses now };

    fn value(&self, name: &Oid, now: u32) -> Option<Value<'_>> {
        self.shown_at(name, now)
    }

    fn shows(&self, _now: u32) {
        prove!(self.rows.len() <= 32);
    }

    ghost recurring = { λ settings one other journal alike now name. refl };
}
