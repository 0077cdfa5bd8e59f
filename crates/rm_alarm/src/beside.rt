// Alarms beside the group whose variables they sample.
use crate::alarms::Alarms;
use rm_group::{Assigns, Beside, Denied, Group, Look, Readable, Sight, Stores};
use rm_model::Verdict;
use std::alloc::Global;

// Alarms look at what the group shows: when a Set is judged, and when it is prepared, so that an alarm that becomes valid starts
// from what its variable read before the Set.
impl<G: Readable + Stores> Beside<G> for Alarms {
    ghost use Rattle.rm_model.specs.ControlRows.{no_rows};
    ghost use Rattle.rm_model.specs.Judgement.{rows_after};
    ghost use Rattle.rm_acts.specs.Alarms.{alarm_table};
    ghost use Rattle.rm_alarm.specs.Group.{alarm_together};
    ghost use Rattle.rm_alarm.specs.Standing.{AreWhole};
    ghost use Rattle.rm_alarm.specs.Watched.{AreReady, ReadsFrom};

    ghost tied = { ReadsFrom G.sampleable };

    ghost together_beside = { λ settings journal now readings bindings place.
        alarm_together (settings.readings journal now) (rows_after alarm_table no_rows journal) bindings place };

    ghost ready = { λ s first now bindings. AreReady G.sampleable (G.stands first) (G.askable first now) s now bindings };

    ghost begun = { AreWhole };

    fn judge_beside<A: Assigns, L: Look>(
        &self,
        first: &G,
        set: &A,
        now: u32,
        _look: &L,
    ) -> Verdict {
        first.shows(now);
        let sight = Sight { group: first };
        self.judge_rows(set, now, &sight)
    }

    fn prepare_beside<A: Assigns, L: Look>(
        &mut self,
        first: &G,
        _alloc: Global,
        set: &A,
        now: u32,
        _look: &L,
    ) -> Result<(), Denied> {
        first.shows(now);
        let sight = Sight { group: first };
        self.remember(set, now, &sight);
        Ok(())
    }

    fn begin<A: Assigns>(&mut self, _first: &G, set: &A, now: u32) {
        self.assign(set, now);
    }

    fn complete(&mut self, _first: &G, _now: u32) {}
}
