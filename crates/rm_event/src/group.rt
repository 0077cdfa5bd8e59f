// The group event, as a group of objects.

use crate::entries::{Entries, LOG_OBJECTS};
use crate::event_cell::Sent;
use crate::event_row::{EVENT_OBJECTS, EventRow};
use crate::events::Events;
use rm_group::{Assigns, Commits, Denied, Group, Look, Stores, TableObjects, Tables};
use rm_model::Verdict;
use rm_nested::{cell_of_both, judge_both, next_of_both};
use rm_val::{Oid, Value};
use std::alloc::Global;

/// The tables of the group.
const OBJECTS: &[TableObjects] = &[EVENT_OBJECTS, LOG_OBJECTS];

impl Group for Events {
    ghost use Rattle.rm_model.specs.ControlRows.{no_rows};
    ghost use Rattle.rm_model.specs.Judgement.{second_pass, rows_after};
    ghost use Rattle.rm_status.specs.Fine.{AreFine};
    ghost use Rattle.rm_event.specs.EventRows.{event_rows};
    ghost use Rattle.rm_event.specs.EventTable.{event_table};
    ghost use Rattle.rm_event.specs.Finite.{event_finite};
    ghost use Rattle.rm_event.specs.Group.{event_cells, event_alone};
    ghost use Rattle.rm_event.specs.Standing.{Stands};

    ghost stands = { Stands };

    ghost clock = { λ s. 0 };

    ghost askable = { λ s moment. Unit {0} };

    ghost frames = { λ s. 0 };

    ghost cells = { λ settings journal now. event_cells settings journal };

    ghost alone = { event_alone };

    ghost together = { λ settings journal now readings bindings place. second_pass event_table (rows_after event_table no_rows journal) bindings place };

    ghost accepts = { λ s now. AreFine event_rows s.rows };

    ghost finite = { λ settings journal now. event_finite settings journal };

    fn least() -> &'static [u32] {
        EVENT_OBJECTS.entry
    }

    fn cell(&self, name: &Oid, now: u32) -> Option<Value<'_>> {
        prove!(self.rows.len() <= 32);
        let (rows, logs) = (&self.rows, &self.logs);
        cell_of_both(rows, &Sent { logs }, &Entries { rows, logs }, name, now)
    }

    fn after(&self, name: &Oid, now: u32, out: &mut Oid) -> Option<Value<'_>> {
        prove!(self.rows.len() <= 32);
        let (rows, logs) = (&self.rows, &self.logs);
        next_of_both(rows, &Sent { logs }, Entries { rows, logs }, name, now, out)
    }

    fn judge_alone<A: Assigns>(&self, set: &A) -> Verdict {
        judge_both::<EventRow, Entries<'_>, A>(&self.rows, set)
    }

    fn judge_rows<A: Assigns, L: Look>(&self, set: &A, _now: u32, _look: &L) -> Verdict {
        self.rows.judge_rows(set)
    }
}

impl Stores for Events {
    ghost use Rattle.rm_model.specs.ControlRows.{no_rows};
    ghost use Rattle.rm_model.specs.Judgement.{rows_after};
    ghost use Rattle.rm_model.specs.Reserves.{Reserves};
    ghost use Rattle.rm_event.specs.EventTable.{event_table};
    ghost use Rattle.rm_event.specs.Group.{IsStocked, IsPrepared, IsReleased};

    ghost stocked = { IsStocked };

    ghost reserves = { λ settings journal bindings index. Reserves event_table (rows_after event_table no_rows journal) bindings index };

    ghost prepared = { λ s now. IsPrepared s };

    ghost released = { IsReleased };

    fn prepare<A: Assigns, L: Look>(
        &mut self,
        alloc: Global,
        set: &A,
        _now: u32,
        _look: &L,
    ) -> Result<(), Denied> {
        self.logs.make_room(alloc, &self.rows, set)
    }

    fn discard(&mut self) {
        self.give_back();
    }
}

impl Commits for Events {
    fn commit<A: Assigns>(&mut self, set: &A, _now: u32) {
        self.assign(set);
        self.give_back();
    }
}

impl Tables for Events {
    ghost use Rattle.std.specs.Prelude.{[], ◌∷◌};
    ghost use Rattle.rm_model.specs.Cells.{cells_of};
    ghost use Rattle.rm_event.specs.Columns.{event_columns};
    ghost use Rattle.rm_event.specs.EventTable.{event_table};
    ghost use Rattle.rm_event.specs.Group.{event_tables};
    ghost use Rattle.rm_event.specs.Tables.{events_table, log_table, log_listed};
    ghost use Rattle.rm_group.specs.Listed.{is_settable, of_table, with_table, beside_listed};

    ghost tables = { event_tables };

    ghost can_be_set = { is_settable event_table };

    fn tables() -> &'static [TableObjects] {
        OBJECTS
    }

    ghost shows_listed = { λ settings journal now.
        with_table (events_table settings journal) (log_listed ∷ []) (cells_of (log_table settings journal)) (of_table (log_table settings journal)) };

    ghost refuses_listed = { beside_listed event_table event_columns log_listed };
}
