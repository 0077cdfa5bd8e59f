// The directory and the tables that count by it, as one group of objects. Where more than one had a variable of a name, the first one's
// would count.
use crate::protocol_tables::ProtocolTables;
use rm_collect::{Collecting, complete};
use rm_dir::Directory;
use rm_dist::Distribution;
use rm_four::{least_of, lowest_verdict};
use rm_group::{
    Assigns, Commits, Denied, Group, Look, Objects, Passing, Readable, Steps, Stores, Unfired,
    cell_in, nearer_in,
};
use rm_hl_hosts::HostPart;
use rm_hl_matrices::PairPart;
use rm_layer_tables::locals_above_ip;
use rm_model::Verdict;
use rm_val::{Oid, Value};
use std::alloc::Global;

#[tactic(auto, unfolding(crate::specs::Group::protocol_cells, crate::specs::Group::protocol_alone, crate::specs::Group::protocol_together))]
impl Group for ProtocolTables {
    ghost use Rattle.rm_protocols.specs.Group.{Stands, AreFine, protocol_cells, protocol_alone, protocol_together, frames_given, last_given};
    ghost use Rattle.rm_protocols.specs.Laws.{all_finite};

    ghost stands = { Stands };

    ghost clock = { last_given };

    ghost askable = { λ s moment. Unit {0} };

    ghost frames = { frames_given };

    ghost cells = { protocol_cells };

    ghost alone = { protocol_alone };

    ghost together = { λ settings journal now readings. protocol_together journal };

    ghost accepts = { λ s now. AreFine s };

    ghost finite = { all_finite };

    fn least() -> &'static [u32] {
        least_of(
            Directory::least(),
            Distribution::least(),
            Collecting::<HostPart>::least(),
            Collecting::<PairPart>::least(),
        )
    }

    fn cell(&self, name: &Oid, now: u32) -> Option<Value<'_>> {
        let directory = self.directory.cell(name, now);
        let protocols = cell_in(directory, &self.distribution, name, now);
        let with_hosts = cell_in(protocols, &self.hosts, name, now);
        cell_in(with_hosts, &self.pairs, name, now)
    }

    fn after(&self, name: &Oid, now: u32, out: &mut Oid) -> Option<Value<'_>> {
        let directory = self.directory.after(name, now, out);
        let protocols = nearer_in(directory, &self.distribution, name, now, out);
        let with_hosts = nearer_in(protocols, &self.hosts, name, now, out);
        nearer_in(with_hosts, &self.pairs, name, now, out)
    }

    fn judge_alone<A: Assigns>(&self, set: &A) -> Verdict {
        let directory = self.directory.judge_alone(set);
        let distribution = self.distribution.judge_alone(set);
        let hosts = self.hosts.judge_alone(set);
        let pairs = self.pairs.judge_alone(set);
        lowest_verdict(directory, distribution, hosts, pairs)
    }

    fn judge_rows<A: Assigns, L: Look>(&self, set: &A, now: u32, look: &L) -> Verdict {
        let directory = self.directory.judge_rows(set, now, look);
        let distribution = self.distribution.judge_rows(set, now, look);
        let hosts = self.hosts.judge_rows(set, now, look);
        let pairs = self.pairs.judge_rows(set, now, look);
        lowest_verdict(directory, distribution, hosts, pairs)
    }
}

#[tactic(auto, unfolding(crate::specs::Group::ProtocolReserves))]
impl Stores for ProtocolTables {
    ghost use Rattle.rm_protocols.specs.Group.{ArePrepared, IsStocked, AreReleased, ProtocolReserves};

    ghost stocked = { IsStocked };

    ghost reserves = { λ settings. ProtocolReserves };

    ghost prepared = { λ s now. ArePrepared s };

    ghost released = { AreReleased };

    fn prepare<A: Assigns, L: Look>(
        &mut self,
        alloc: Global,
        set: &A,
        now: u32,
        look: &L,
    ) -> Result<(), Denied> {
        self.hosts.prepare(alloc, set, now, look)?;
        let pairs = self.pairs.prepare(alloc, set, now, look);
        if pairs.is_err() {
            self.discard();
        }
        pairs
    }

    fn discard(&mut self) {
        self.hosts.discard();
        self.pairs.discard();
    }
}

// What counts by the directory begins a Set before the directory does it, and completes it then.
impl Commits for ProtocolTables {
    fn commit<A: Assigns>(&mut self, set: &A, now: u32) {
        self.distribution.assign(set, now);
        self.hosts.assign(set, now);
        self.pairs.assign(set, now);
        self.directory.commit(set, now);
        self.distribution.sift(&self.directory);
        complete(&mut self.hosts, &self.directory);
        complete(&mut self.pairs, &self.directory);
    }
}

#[tactic(auto, unfolding(crate::specs::Group::protocol_objects))]
impl Objects for ProtocolTables {
    ghost use Rattle.rm_protocols.specs.Group.{protocol_objects, protocol_settable};
    ghost use Rattle.rm_protocols.specs.Laws.{all_listed, all_refused};

    ghost objects = { protocol_objects };

    ghost settable = { protocol_settable };

    ghost listed = { all_listed };

    ghost refused = { all_refused };

    fn has_object(name: &Oid) -> bool {
        Directory::has_object(name)
            || Distribution::has_object(name)
            || Collecting::<HostPart>::has_object(name)
            || Collecting::<PairPart>::has_object(name)
    }
}

// Alarms may sample the distribution, and nothing else.
#[tactic(auto, unfolding(crate::specs::Group::distributed_cells))]
impl Readable for ProtocolTables {
    ghost use Rattle.rm_protocols.specs.Group.{distributed_cells, shown};
    ghost use Rattle.rm_protocols.specs.Laws.{all_recurring};

    ghost sampleable = { λ settings journal now. distributed_cells settings journal };

    ghost shown = { λ s now. shown s };

    fn value(&self, name: &Oid, now: u32) -> Option<Value<'_>> {
        self.distribution.value(name, now)
    }

    fn shows(&self, now: u32) {
        self.distribution.shows(now);
    }

    ghost recurring = { all_recurring };
}

// A frame counts by the protocols that are active before it, and makes no difference to the directory itself.
impl Unfired for ProtocolTables {
    fn take_frame(&mut self, passing: &Passing<'_>) {
        let facts = &passing.facts;
        let above_ip = locals_above_ip(&self.directory, facts);
        self.distribution
            .frame(&self.directory, facts, passing.moment);
        self.directory.pass(passing);
        let path = above_ip.as_slice();
        self.hosts.take_judged(path, passing);
        self.pairs.take_judged(path, passing);
    }
}
