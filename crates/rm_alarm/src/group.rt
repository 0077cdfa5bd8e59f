// The group alarm, as a group of objects.
ghost use Rattle.rm_model.specs.Cells.{cells_of};
ghost use Rattle.rm_model.specs.ControlRows.{no_rows};
ghost use Rattle.rm_model.specs.Judgement.{rows_after};
ghost use Rattle.rm_acts.specs.Alarms.{alarm_table};
ghost use Rattle.rm_alarm.specs.AlarmTable.{alarms_table};
ghost use Rattle.rm_alarm.specs.Standing.{AreWhole};
ghost use Rattle.rm_alarm.specs.Group.{alarm_alone, alarm_together, AreFine, HasForgotten, alarms_finite};

use crate::alarms::Alarms;
use crate::cell::LastValue;
use crate::columns::ALARM_OBJECTS;
use crate::judging::judge_variables;
use crate::laws::frames_pass;
use rm_group::{
    Assigns, Denied, Group, Look, Passing, Stores, TableObjects, Tables, Unfired, lower_verdict,
};
use rm_model::Verdict;
use rm_val::{Oid, Value};
use std::alloc::Global;

/// The tables of the group.
const OBJECTS: &[TableObjects] = &[ALARM_OBJECTS];

impl Group for Alarms {
    ghost stands = { AreWhole };

    ghost clock = { λ s. 0 };

    ghost askable = { λ s moment. Unit {0} };

    ghost frames = { λ s. 0 };

    ghost cells = { λ settings journal now. cells_of (alarms_table settings journal) };

    ghost alone = { alarm_alone };

    ghost together = { λ settings journal now readings bindings place.
        alarm_together readings (rows_after alarm_table no_rows journal) bindings place };

    ghost accepts = { λ s now. AreFine s };

    ghost finite = { λ settings journal now. alarms_finite settings journal };

    fn least() -> &'static [u32] {
        ALARM_OBJECTS.entry
    }

    fn cell(&self, name: &Oid, _now: u32) -> Option<Value<'_>> {
        self.rows.cell(&LastValue, name)
    }

    fn after(&self, name: &Oid, _now: u32, out: &mut Oid) -> Option<Value<'_>> {
        self.rows.next_cell(&LastValue, name, out)
    }

    fn judge_alone<A: Assigns>(&self, set: &A) -> Verdict {
        self.rows.judge_alone(set)
    }

    fn judge_rows<A: Assigns, L: Look>(&self, set: &A, now: u32, look: &L) -> Verdict {
        let rows = self.rows.judge_rows(set);
        let variables = judge_variables(&self.rows, set, now, look);
        lower_verdict(rows, variables)
    }
}

impl Stores for Alarms {
    ghost stocked = { λ s. Unit {0} };

    ghost reserves = { λ settings journal bindings index. ⊥ };

    ghost prepared = { λ s now. AreFine s };

    ghost released = { HasForgotten };

    fn prepare<A: Assigns, L: Look>(
        &mut self,
        _alloc: Global,
        set: &A,
        now: u32,
        look: &L,
    ) -> Result<(), Denied> {
        self.remember(set, now, look);
        Ok(())
    }

    fn discard(&mut self) {
        self.forget();
    }
}

impl Tables for Alarms {
    ghost use Rattle.rm_acts.specs.Alarms.{alarm_table};
    ghost use Rattle.rm_alarm.specs.AlarmTable.{alarm_columns, alarms_table};
    ghost use Rattle.rm_alarm.specs.Group.{alarm_tables};
    ghost use Rattle.rm_group.specs.Listed.{is_settable, of_table, control_listed};

    ghost tables = { alarm_tables };

    ghost can_be_set = { is_settable alarm_table };

    fn tables() -> &'static [TableObjects] {
        OBJECTS
    }

    ghost shows_listed = { λ settings journal now. of_table (alarms_table settings journal) };

    ghost refuses_listed = { control_listed alarm_table alarm_columns };
}

impl Unfired for Alarms {
    fn take_frame(&mut self, _passing: &Passing<'_>) {
        frames_pass();
    }
}
