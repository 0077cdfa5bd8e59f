// What a Set makes of reports.
ghost use Rattle.std.specs.Prelude.{◌≡◌, ◌≤◌, ◌∷◌, ℕ, List};
ghost use Rattle.rm_model.specs.Counting.{Counting};
ghost use Rattle.rm_model.specs.Journal.{Assignments, Journal, assigns, last_moment, value_given};
ghost use Rattle.rm_topn.specs.Group.{IsPrepared, IsReleased, IsStocked};
ghost use Rattle.rm_topn.specs.Held.{AreAskable};
ghost use Rattle.rm_topn.specs.Kept.{DoHostsGoOn, DoHostsStand};
ghost use Rattle.rm_topn.specs.Standing.{HasBegun, Stands};

use crate::asking::{Asking, Idle};
use crate::ending::Beginning;
use crate::reports::Reports;
use rm_group::Assigns;
use rm_hosts::Hosts;

impl Reports {
    // Does a Set, for which all is ready, at a moment in milliseconds, but for the reports that are to begin by it: these want the hosts as
    // they are after it.
    pub(crate) fn assign<A: Assigns>(&mut self, set: &A, now: u32)
        requires later { self.old.last ≤ now }
        requires ready { IsPrepared self.old (A.bindings set.now) }
        ensures begun { (settings : Counting) (journal : Journal) (values : Assignments) → Stands self.old settings journal → last_moment journal ≤ now
            → AreAskable self.old.courses now → ((name : List ℕ) → value_given values name ≡ value_given (A.bindings set.now) name)
            → DoHostsGoOn journal (assigns now values ∷ journal) → HasBegun self.new settings (assigns now values ∷ journal) }
        ensures stocked { IsStocked self.old → IsStocked self.new }
        ensures last { self.new.last ≡ now }
        ensures frames { self.new.frames ≡ self.old.frames }
    {
        prove!(self.rows.len() <= 32);
        self.rows.commit(set);
        let rows = &self.rows;
        self.courses.change_each(&Asking { set, rows });
        self.courses.follow(rows, &Idle { rows });
        self.last = now;
    }

    // Begins the reports that are to begin by a Set of that moment, by the hosts after it.
    pub(crate) fn begin_all(&mut self, hosts: &Hosts, now: u32)
        requires later { self.old.last ≤ now }
        ensures stands { (settings : Counting) (journal : Journal) → DoHostsStand hosts.now settings journal → last_moment journal ≡ now
            → HasBegun self.old settings journal → Stands self.new settings journal }
        ensures stocked { IsStocked self.old → IsStocked self.new }
        ensures released { IsReleased self.old → IsReleased self.new }
        ensures last { self.new.last ≡ now }
        ensures frames { self.new.frames ≡ self.old.frames }
    {
        self.courses.change_each(&Beginning { hosts, now });
        self.last = now;
    }
}
