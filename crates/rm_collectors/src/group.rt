// The control tables whose valid rows collect, as one group of objects. Where more than one had a variable of a name, the first one's
// would count.
use crate::collectors::Collectors;
use rm_four::{least_of, lowest_verdict};
use rm_group::{
    Assigns, Beside, Commits, Denied, Due, FallsDue, Group, Look, Objects, Passing, Readable,
    Stores, Unfired, Unsampled, cell_in, nearer_in,
};
use rm_history::History;
use rm_hosts::Hosts;
use rm_matrix::Matrix;
use rm_model::Verdict;
use rm_topn::Reports;
use rm_val::{Oid, Value};
use std::alloc::Global;

#[tactic(auto, unfolding(crate::specs::Group::collected_cells, crate::specs::Group::collected_alone, crate::specs::Group::collected_together))]
impl Group for Collectors {
    ghost use Rattle.rm_collectors.specs.Group.{Stands, IsAskable, AreFine, collected_cells, collected_alone, collected_together, frames_given, last_given};
    ghost use Rattle.rm_collectors.specs.Laws.{all_finite};

    ghost stands = { Stands };

    ghost clock = { last_given };

    ghost askable = { IsAskable };

    ghost frames = { frames_given };

    ghost cells = { collected_cells };

    ghost alone = { collected_alone };

    ghost together = { λ settings journal now readings. collected_together journal };

    ghost accepts = { λ s now. AreFine s };

    ghost finite = { all_finite };

    fn least() -> &'static [u32] {
        least_of(
            History::least(),
            Matrix::least(),
            Hosts::least(),
            Reports::least(),
        )
    }

    fn cell(&self, name: &Oid, now: u32) -> Option<Value<'_>> {
        let history = self.history.cell(name, now);
        let of_two = cell_in(history, &self.matrix, name, now);
        let of_three = cell_in(of_two, &self.hosts, name, now);
        cell_in(of_three, &self.reports, name, now)
    }

    fn after(&self, name: &Oid, now: u32, out: &mut Oid) -> Option<Value<'_>> {
        let history = self.history.after(name, now, out);
        let of_two = nearer_in(history, &self.matrix, name, now, out);
        let of_three = nearer_in(of_two, &self.hosts, name, now, out);
        nearer_in(of_three, &self.reports, name, now, out)
    }

    fn judge_alone<A: Assigns>(&self, set: &A) -> Verdict {
        let history = self.history.judge_alone(set);
        let matrix = self.matrix.judge_alone(set);
        let hosts = self.hosts.judge_alone(set);
        let reports = self.reports.judge_alone(set);
        lowest_verdict(history, matrix, hosts, reports)
    }

    fn judge_rows<A: Assigns, L: Look>(&self, set: &A, now: u32, look: &L) -> Verdict {
        let history = self.history.judge_rows(set, now, look);
        let matrix = self.matrix.judge_rows(set, now, look);
        let hosts = self.hosts.judge_rows(set, now, look);
        let reports = self.reports.judge_beside(&self.hosts, set, now, look);
        lowest_verdict(history, matrix, hosts, reports)
    }
}

#[tactic(auto, unfolding(crate::specs::Group::CollectedReserves))]
impl Stores for Collectors {
    ghost use Rattle.rm_collectors.specs.Group.{ArePrepared, IsStocked, AreReleased, CollectedReserves};

    ghost stocked = { IsStocked };

    ghost reserves = { λ settings. CollectedReserves };

    ghost prepared = { λ s now. ArePrepared s };

    ghost released = { AreReleased };

    fn prepare<A: Assigns, L: Look>(
        &mut self,
        alloc: Global,
        set: &A,
        now: u32,
        look: &L,
    ) -> Result<(), Denied> {
        self.history.prepare(alloc, set, now, look)?;
        let matrix = self.matrix.prepare(alloc, set, now, look);
        if matrix.is_err() {
            self.discard();
            return matrix;
        }
        let hosts = self.hosts.prepare(alloc, set, now, look);
        if hosts.is_err() {
            self.discard();
            return hosts;
        }
        let reports = self
            .reports
            .prepare_beside(&self.hosts, alloc, set, now, look);
        if reports.is_err() {
            self.discard();
        }
        reports
    }

    fn discard(&mut self) {
        self.history.discard();
        self.matrix.discard();
        self.hosts.discard();
        self.reports.discard();
    }
}

// The reports that a Set begins take the hosts as they are after it.
impl Commits for Collectors {
    fn commit<A: Assigns>(&mut self, set: &A, now: u32) {
        self.reports.begin(&self.hosts, set, now);
        self.history.commit(set, now);
        self.matrix.commit(set, now);
        self.hosts.commit(set, now);
        self.reports.complete(&self.hosts, now);
    }
}

#[tactic(auto, unfolding(crate::specs::Group::collected_objects))]
impl Objects for Collectors {
    ghost use Rattle.rm_collectors.specs.Group.{collected_objects, collected_settable};
    ghost use Rattle.rm_collectors.specs.Laws.{all_listed, all_refused};

    ghost objects = { collected_objects };

    ghost settable = { collected_settable };

    ghost listed = { all_listed };

    ghost refused = { all_refused };

    fn has_object(name: &Oid) -> bool {
        History::has_object(name)
            || Matrix::has_object(name)
            || Hosts::has_object(name)
            || Reports::has_object(name)
    }
}

#[tactic(auto, unfolding(crate::specs::Group::collected_cells, rm_history::specs::Collection::history_collection, rm_sourced::specs::Collection::source_collection))]
impl Readable for Collectors {
    ghost use Rattle.rm_collectors.specs.Group.{collected_cells, shown};
    ghost use Rattle.rm_collectors.specs.Laws.{all_recurring};

    ghost sampleable = { collected_cells };

    ghost shown = { shown };

    fn value(&self, name: &Oid, now: u32) -> Option<Value<'_>> {
        if let Some(value) = self.history.value(name, now) {
            return Some(value);
        }
        if let Some(value) = self.matrix.value(name, now) {
            return Some(value);
        }
        if let Some(value) = self.hosts.value(name, now) {
            return Some(value);
        }
        self.reports.value(name, now)
    }

    fn shows(&self, now: u32) {
        self.history.shows(now);
        self.matrix.shows(now);
        self.hosts.shows(now);
        self.reports.shows(now);
    }

    ghost recurring = { all_recurring };
}

impl Unfired for Collectors {
    fn take_frame(&mut self, passing: &Passing<'_>) {
        self.history.take_frame(passing);
        self.matrix.take_frame(passing);
        self.hosts.take_frame(passing);
        self.reports.take_frame(passing);
    }
}

impl Unsampled for Collectors {
    ghost use Rattle.rm_collectors.specs.Laws.{all_begin};

    ghost begins = { all_begin };
}

// Only the reports of hosts fall due.
impl FallsDue for Collectors {
    ghost use Rattle.rm_collectors.specs.Group.{FallsDue, left_of};
    ghost use Rattle.rm_collectors.specs.Laws.{all_asked};

    ghost falls_due = { FallsDue };

    ghost left = { left_of };

    fn next_due(&self) -> Option<Due> {
        self.reports.next_due()
    }

    ghost asked = { all_asked };
}
