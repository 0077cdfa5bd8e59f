// The groups whose variables alarms may sample, as one group of objects: what the pairs of them do.
use crate::sources::{Groups, Sources};
use rm_group::{Assigns, Commits, Denied, Due, FallsDue, Group, Look, Objects, Readable, Stores};
use rm_model::Verdict;
use rm_val::{Oid, Value};
use std::alloc::Global;

#[tactic(auto, unfolding(crate::specs::Group::Stands, crate::specs::Group::source_cells, crate::specs::Group::source_alone, crate::specs::Group::source_together))]
impl Group for Sources {
    ghost use Rattle.rm_sources.specs.Group.{Stands, IsAskable, AreFine, source_cells, source_alone, source_together, frames_given, last_given};
    ghost use Rattle.rm_sources.specs.Laws.{all_finite};

    ghost stands = { Stands };

    ghost clock = { last_given };

    ghost askable = { IsAskable };

    ghost frames = { frames_given };

    ghost cells = { source_cells };

    ghost alone = { source_alone };

    ghost together = { λ settings journal now readings. source_together settings journal };

    ghost accepts = { λ s now. AreFine s };

    ghost finite = { all_finite };

    fn least() -> &'static [u32] {
        Groups::least()
    }

    fn cell(&self, name: &Oid, now: u32) -> Option<Value<'_>> {
        self.groups.cell(name, now)
    }

    fn after(&self, name: &Oid, now: u32, out: &mut Oid) -> Option<Value<'_>> {
        self.groups.after(name, now, out)
    }

    fn judge_alone<A: Assigns>(&self, set: &A) -> Verdict {
        self.groups.judge_alone(set)
    }

    fn judge_rows<A: Assigns, L: Look>(&self, set: &A, now: u32, look: &L) -> Verdict {
        self.groups.judge_rows(set, now, look)
    }
}

#[tactic(auto, unfolding(crate::specs::Group::Stands, crate::specs::Group::SourceReserves))]
impl Stores for Sources {
    ghost use Rattle.rm_sources.specs.Group.{ArePrepared, IsStocked, AreReleased, SourceReserves};

    ghost stocked = { IsStocked };

    ghost reserves = { λ settings. SourceReserves };

    ghost prepared = { λ s now. ArePrepared s };

    ghost released = { AreReleased };

    fn prepare<A: Assigns, L: Look>(
        &mut self,
        alloc: Global,
        set: &A,
        now: u32,
        look: &L,
    ) -> Result<(), Denied> {
        self.groups.prepare(alloc, set, now, look)
    }

    fn discard(&mut self) {
        self.groups.discard();
    }
}

#[tactic(auto, unfolding(crate::specs::Group::Stands))]
impl Commits for Sources {
    fn commit<A: Assigns>(&mut self, set: &A, now: u32) {
        self.groups.commit(set, now);
    }
}

#[tactic(auto, unfolding(crate::specs::Group::source_objects))]
impl Objects for Sources {
    ghost use Rattle.rm_sources.specs.Group.{source_objects, source_settable};
    ghost use Rattle.rm_sources.specs.Laws.{all_listed, all_refused};

    ghost objects = { source_objects };

    ghost settable = { source_settable };

    ghost listed = { all_listed };

    ghost refused = { all_refused };

    fn has_object(name: &Oid) -> bool {
        Groups::has_object(name)
    }
}

#[tactic(auto, unfolding(crate::specs::Group::Stands, crate::specs::Group::sampled_cells))]
impl Readable for Sources {
    ghost use Rattle.rm_sources.specs.Group.{sampled_cells, shown};
    ghost use Rattle.rm_sources.specs.Laws.{all_recurring};

    ghost sampleable = { sampled_cells };

    ghost shown = { shown };

    fn value(&self, name: &Oid, now: u32) -> Option<Value<'_>> {
        self.groups.value(name, now)
    }

    fn shows(&self, now: u32) {
        self.groups.shows(now);
    }

    ghost recurring = { all_recurring };
}

// Only the reports of hosts fall due.
impl FallsDue for Sources {
    ghost use Rattle.rm_sources.specs.Group.{FallsDue, left_of};
    ghost use Rattle.rm_sources.specs.Laws.{all_asked};

    ghost falls_due = { FallsDue };

    ghost left = { left_of };

    fn next_due(&self) -> Option<Due> {
        self.groups.first.second.next_due()
    }

    ghost asked = { all_asked };
}
