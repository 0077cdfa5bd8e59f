// A group beside another one, with which it is one group.
ghost use Rattle.std.specs.Prelude.{◌≡◌, ℕ, ◌≤◌, List, ◌∷◌, length, Option, OnOk, OnErr, IfErr};
ghost use Rattle.rm_val.specs.declared.error.ErrorStatus.{ErrorStatus as Fault};
ghost use Rattle.rm_model.specs.Counting.{Counting};
ghost use Rattle.rm_model.specs.Journal.{Assignments, Journal, assigns, last_moment, value_given};
ghost use Rattle.rm_model.specs.Judgement.{Bindings, IsFirstFault};
ghost use Rattle.rm_group.specs.Look.{Readings};
ghost use Rattle.rm_group.specs.Alone.{AreFineAlone, IsWithin};

use crate::assigns::Assigns;
use crate::commits::Commits;
use crate::denied::Denied;
use crate::look::Look;
use crate::stores::Stores;
use rm_model::Verdict;
use std::alloc::Global;

/// A group beside a first one, with which it is one group (`Both`). It may look at the first one when a Set is judged and made
/// ready for, and once the first one has done it: what it keeps of a Set may be whole only then. A group that does a Set by
/// itself stands beside every other.
pub trait Beside<G: Stores>: Stores {
    /// What the probe was set to is as the group needs it beside the first one.
    ghost tied: { Counting → Type 0 };

    /// What is wrong with the binding at a place together with the others of its row, after a journal, at a moment in
    /// milliseconds and by what is read then.
    ghost together_beside: { Counting → Journal → ℕ → Readings → Bindings → ℕ → Option Fault };

    /// The group is ready to do a Set at a moment in milliseconds, beside the first one as it is before the Set.
    ghost ready: { Self → G → ℕ → Bindings → Type 0 };

    /// The group has begun the Set that is the last act of a journal: it is whole once it was completed.
    ghost begun: { Self → Counting → Journal → Type 0 };

    /// The second pass of a Set (`judge_rows`), beside the first group.
    fn judge_beside<A: Assigns, L: Look>(&self, first: &G, set: &A, now: u32, look: &L) -> Verdict
        requires alone { AreFineAlone Self.Group.alone (A.bindings set.now) }
        ensures accepted { result ≡ Verdict.Fine → Self.Group.accepts self.now now (A.bindings set.now) }
        ensures verdict { let bindings = A.bindings set.now in (settings : Counting) (journal : Journal) → tied settings
            → G.stands first.now settings journal → Self.Group.stands self.now settings journal → last_moment journal ≤ now
            → G.askable first.now now → Self.Group.askable self.now now
            → IsFirstFault (length bindings) (together_beside settings journal now (L.readings look.now now) bindings) result }
        ensures within { IsWithin (length (A.bindings set.now)) result };

    /// Makes ready for a Set (`prepare`), beside the first group.
    fn prepare_beside<A: Assigns, L: Look>(
        &mut self,
        first: &G,
        alloc: Global,
        set: &A,
        now: u32,
        look: &L,
    ) -> Result<(), Denied>
        requires later { Self.Group.clock self.old ≤ now }
        requires accepted { Self.Group.accepts self.old now (A.bindings set.now) }
        requires stocked { Self.Stores.stocked self.old }
        ensures clock { Self.Group.clock self.new ≡ Self.Group.clock self.old }
        ensures askable { (moment : ℕ) → Self.Group.askable self.old moment → Self.Group.askable self.new moment }
        ensures frames { Self.Group.frames self.new ≡ Self.Group.frames self.old }
        ensures stocked { Self.Stores.stocked self.new }
        ensures stands { (settings : Counting) (journal : Journal) → Self.Group.stands self.old settings journal
            → Self.Group.stands self.new settings journal }
        ensures ready { OnOk result (ready self.new first.now now (A.bindings set.now)) }
        ensures released { OnErr result (Self.Stores.released self.old → Self.Stores.released self.new) }
        ensures denied { IfErr result (λ denied. (settings : Counting) (journal : Journal) → Self.Group.stands self.old settings journal
            → Self.Stores.reserves settings journal (A.bindings set.now) denied.index) }
        ensures within { IfErr result (λ denied. denied.index ≤ length (A.bindings set.now)) };

    /// Begins a Set at a moment in milliseconds, for which both groups were made ready, and which the first one hasn't done yet. No
    /// memory is taken.
    fn begin<A: Assigns>(&mut self, first: &G, set: &A, now: u32)
        requires later { Self.Group.clock self.old ≤ now }
        requires first_ready { G.prepared first.now now (A.bindings set.now) }
        requires ready { ready self.old first.now now (A.bindings set.now) }
        requires stocked { Self.Stores.stocked self.old }
        ensures clock { Self.Group.clock self.new ≤ now }
        ensures frames { Self.Group.frames self.new ≡ Self.Group.frames self.old }
        ensures stocked { Self.Stores.stocked self.new }
        ensures begun { (settings : Counting) (journal : Journal) (values : Assignments) → tied settings
            → G.stands first.now settings journal → Self.Group.stands self.old settings journal → last_moment journal ≤ now
            → G.askable first.now now → Self.Group.askable self.old now
            → ((name : List ℕ) → value_given values name ≡ value_given (A.bindings set.now) name)
            → begun self.new settings (assigns now values ∷ journal) }
        ensures released { Self.Stores.released self.new };

    /// Completes a Set that was begun at a moment in milliseconds, and which the first group has done. No memory is taken.
    fn complete(&mut self, first: &G, now: u32)
        requires later { Self.Group.clock self.old ≤ now }
        ensures clock { Self.Group.clock self.new ≤ now }
        ensures frames { Self.Group.frames self.new ≡ Self.Group.frames self.old }
        ensures stocked { Self.Stores.stocked self.old → Self.Stores.stocked self.new }
        ensures stands { (settings : Counting) (journal : Journal) → tied settings → G.stands first.now settings journal
            → last_moment journal ≡ now → begun self.old settings journal → Self.Group.stands self.new settings journal }
        ensures released { Self.Stores.released self.old → Self.Stores.released self.new };
}

// A group that does a Set by itself has nothing to look at.
impl<G: Stores, H: Commits> Beside<G> for H {
    ghost tied = { λ settings. Unit {0} };

    ghost together_beside = { H.together };

    ghost ready = { λ s first now bindings. H.prepared s now bindings };

    ghost begun = { H.stands };

    fn judge_beside<A: Assigns, L: Look>(
        &self,
        _first: &G,
        set: &A,
        now: u32,
        look: &L,
    ) -> Verdict {
        self.judge_rows(set, now, look)
    }

    fn prepare_beside<A: Assigns, L: Look>(
        &mut self,
        _first: &G,
        alloc: Global,
        set: &A,
        now: u32,
        look: &L,
    ) -> Result<(), Denied> {
        self.prepare(alloc, set, now, look)
    }

    fn begin<A: Assigns>(&mut self, _first: &G, set: &A, now: u32) {
        self.commit(set, now);
    }

    fn complete(&mut self, _first: &G, _now: u32) {}
}
