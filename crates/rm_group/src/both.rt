// Two groups as one.
ghost use Rattle.std.specs.Prelude.{◌||◌, ◌⊎◌, max};
ghost use Rattle.std.specs.Option.{option_or};
ghost use Rattle.rm_model.proofs.Finite.{both_finite};
ghost use Rattle.rm_group.specs.Both.{StandAsOne};
ghost use Rattle.rm_group.specs.Listed.{both_of_objects, both_refused};

use crate::assigns::Assigns;
use crate::beside::Beside;
use crate::cell::cell_in;
use crate::commits::Commits;
use crate::denied::Denied;
use crate::group::Group;
use crate::least::{is_before, is_under, lesser};
use crate::look::Look;
use crate::lower::lower_verdict;
use crate::nearer::{choose_nearer, nearer_in};
use crate::objects::Objects;
use crate::stores::Stores;
use rm_model::Verdict;
use rm_val::{Oid, Value};
use std::alloc::Global;

/// Two groups as one, of which the second stands beside the first. Where both have a variable of a name, the first one's counts.
/// A judgement names the lower of the bindings that theirs name, by the first one where both name the same.
#[derive(Drop)]
pub struct Both<G, H> {
    /// The group whose variables count where both have one of a name.
    pub first: G,
    /// The other group.
    pub second: H,
}

impl<G: Stores, H: Beside<G>> Group for Both<G, H> {
    ghost stands = { λ s settings journal. StandAsOne (G.stands s.first settings journal) (H.stands s.second settings journal) (H.tied settings) };

    ghost clock = { λ s. max (G.clock s.first) (H.clock s.second) };

    ghost askable = { λ s moment. G.askable s.first moment × H.askable s.second moment };

    ghost frames = { λ s. max (G.frames s.first) (H.frames s.second) };

    ghost cells = { λ settings journal now name. option_or (G.cells settings journal now name) (H.cells settings journal now name) };

    ghost alone = { λ name value. option_or (G.alone name value) (H.alone name value) };

    ghost together = { λ settings journal now readings bindings place.
        option_or (G.together settings journal now readings bindings place) (H.together_beside settings journal now readings bindings place) };

    ghost accepts = { λ s now bindings. G.accepts s.first now bindings × H.accepts s.second now bindings };

    ghost finite = { λ settings journal now.
        both_finite (G.cells settings journal now) (H.cells settings journal now) (G.finite settings journal now) (H.finite settings journal now) };

    fn cell(&self, name: &Oid, now: u32) -> Option<Value<'_>> {
        cell_in(self.first.cell(name, now), &self.second, name, now)
    }

    fn least() -> &'static [u32] {
        lesser(G::least(), H::least())
    }

    fn after(&self, name: &Oid, now: u32, out: &mut Oid) -> Option<Value<'_>> {
        if is_before(H::least(), G::least()) {
            let Some(value) = self.second.after(name, now, out) else {
                return self.first.after(name, now, out);
            };
            if is_under(out, G::least()) {
                return Some(value);
            }
            let mut nearest = Oid::new();
            let first = self.first.after(name, now, &mut nearest);
            let nearer = choose_nearer(first, &mut nearest, Some(value), out.copied());
            *out = nearest;
            nearer
        } else {
            let found = self.first.after(name, now, out);
            nearer_in(found, &self.second, name, now, out)
        }
    }

    fn judge_alone<A: Assigns>(&self, set: &A) -> Verdict {
        lower_verdict(self.first.judge_alone(set), self.second.judge_alone(set))
    }

    fn judge_rows<A: Assigns, L: Look>(&self, set: &A, now: u32, look: &L) -> Verdict {
        let first = self.first.judge_rows(set, now, look);
        let second = self.second.judge_beside(&self.first, set, now, look);
        lower_verdict(first, second)
    }
}

impl<G: Stores, H: Beside<G>> Stores for Both<G, H> {
    ghost stocked = { λ s. G.stocked s.first × H.stocked s.second };

    ghost reserves = { λ settings journal bindings index. G.reserves settings journal bindings index ⊎ H.reserves settings journal bindings index };

    ghost prepared = { λ s now bindings. G.prepared s.first now bindings × H.ready s.second s.first now bindings };

    ghost released = { λ s. G.released s.first × H.released s.second };

    fn prepare<A: Assigns, L: Look>(
        &mut self,
        alloc: Global,
        set: &A,
        now: u32,
        look: &L,
    ) -> Result<(), Denied> {
        self.first.prepare(alloc, set, now, look)?;
        let second = self
            .second
            .prepare_beside(&self.first, alloc, set, now, look);
        if second.is_err() {
            self.first.discard();
        }
        second
    }

    fn discard(&mut self) {
        self.first.discard();
        self.second.discard();
    }
}

impl<G: Commits, H: Beside<G>> Commits for Both<G, H> {
    fn commit<A: Assigns>(&mut self, set: &A, now: u32) {
        self.second.begin(&self.first, set, now);
        self.first.commit(set, now);
        self.second.complete(&self.first, now);
    }
}

impl<G: Objects + Stores, H: Objects + Beside<G>> Objects for Both<G, H> {
    ghost objects = { λ name. G.objects name || H.objects name };

    ghost settable = { λ name. G.settable name || H.settable name };

    ghost listed = { λ settings journal now.
        both_of_objects G.objects H.objects (G.cells settings journal now) (H.cells settings journal now)
        (G.listed settings journal now) (H.listed settings journal now) };

    ghost refused = { both_refused G.objects H.objects G.settable H.settable G.alone H.alone G.refused H.refused };

    fn has_object(name: &Oid) -> bool {
        G::has_object(name) || H::has_object(name)
    }
}
