// The reports beside the group of the hosts.
use crate::reports::Reports;
use rm_group::{Assigns, Beside, Denied, Group, Look, Stores};
use rm_hosts::Hosts;
use rm_model::Verdict;
use std::alloc::Global;

// A report that begins by a Set takes a copy of the hosts as they are after it.
impl Beside<Hosts> for Reports {
    ghost use Rattle.rm_model.specs.ControlRows.{no_rows};
    ghost use Rattle.rm_model.specs.Judgement.{second_pass, rows_after};
    ghost use Rattle.rm_topn.specs.Control.{top_control};
    ghost use Rattle.rm_topn.specs.Group.{IsPrepared};
    ghost use Rattle.rm_topn.specs.Standing.{HasBegun};

    ghost tied = { λ settings. Unit {0} };

    ghost together_beside = { λ settings journal now readings bindings place. second_pass top_control (rows_after top_control no_rows journal) bindings place };

    ghost ready = { λ s first now. IsPrepared s };

    ghost begun = { HasBegun };

    fn judge_beside<A: Assigns, L: Look>(
        &self,
        _hosts: &Hosts,
        set: &A,
        now: u32,
        look: &L,
    ) -> Verdict {
        self.judge_rows(set, now, look)
    }

    fn prepare_beside<A: Assigns, L: Look>(
        &mut self,
        _hosts: &Hosts,
        alloc: Global,
        set: &A,
        now: u32,
        look: &L,
    ) -> Result<(), Denied> {
        self.prepare(alloc, set, now, look)
    }

    fn begin<A: Assigns>(&mut self, hosts: &Hosts, set: &A, now: u32) {
        hosts.goes_on(set, now);
        self.assign(set, now);
        self.give_back();
    }

    fn complete(&mut self, hosts: &Hosts, now: u32) {
        self.begin_all(hosts, now);
    }
}
