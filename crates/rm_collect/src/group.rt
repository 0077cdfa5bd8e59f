// A control table whose valid rows collect, as a group of objects.
use crate::collected::{ByFacts, Collected};
use crate::collecting::Collecting;
use crate::turned::ByItself;
use rm_group::{
    Assigns, Commits, Denied, Group, Look, NeverDue, Passing, Readable, Stores, TableObjects,
    Tables, Unfired, Unsampled, lower_verdict,
};
use rm_model::Verdict;
use rm_val::{Oid, Value};
use std::alloc::Global;

impl<P: Collected> Group for Collecting<P> {
    ghost use Rattle.rm_model.specs.ControlRows.{no_rows};
    ghost use Rattle.rm_model.specs.Judgement.{second_pass, rows_after};
    ghost use Rattle.rm_collect.specs.Collection.{alone};
    ghost use Rattle.rm_collect.specs.Group.{Stands, AreFine, frames_given, last_given};

    ghost stands = { Stands P.Columns.form P.collection };

    ghost clock = { last_given };

    ghost askable = { λ s moment. Unit {0} };

    ghost frames = { frames_given };

    ghost cells = { P.collection.cells };

    ghost alone = { alone P.Columns.form P.collection };

    ghost together = { λ settings journal now readings bindings place. second_pass P.Columns.form.table (rows_after P.Columns.form.table no_rows journal) bindings place };

    ghost accepts = { λ s now. AreFine P.Columns.form P.collection s };

    ghost finite = { P.laws.finite };

    fn least() -> &'static [u32] {
        P::least()
    }

    fn cell(&self, name: &Oid, now: u32) -> Option<Value<'_>> {
        self.shown_at(name, now)
    }

    fn after(&self, name: &Oid, now: u32, out: &mut Oid) -> Option<Value<'_>> {
        self.shown_after(name, now, out)
    }

    fn judge_alone<A: Assigns>(&self, set: &A) -> Verdict {
        lower_verdict(self.table.rows.judge_alone(set), P::judge_inner(set))
    }

    fn judge_rows<A: Assigns, L: Look>(&self, set: &A, _now: u32, _look: &L) -> Verdict {
        self.table.rows.judge_rows(set)
    }
}

impl<P: Collected> Stores for Collecting<P> {
    ghost use Rattle.rm_model.specs.ControlRows.{no_rows};
    ghost use Rattle.rm_model.specs.Judgement.{rows_after};
    ghost use Rattle.rm_model.specs.Reserves.{Reserves};
    ghost use Rattle.rm_collect.specs.Group.{IsStocked, IsPrepared, IsReleased};

    ghost stocked = { IsStocked };

    ghost reserves = { λ settings journal bindings index. Reserves P.Columns.form.table (rows_after P.Columns.form.table no_rows journal) bindings index };

    ghost prepared = { λ s now. IsPrepared P.Columns.form P.collection s };

    ghost released = { IsReleased P.Columns.form };

    fn prepare<A: Assigns, L: Look>(
        &mut self,
        alloc: Global,
        set: &A,
        _now: u32,
        _look: &L,
    ) -> Result<(), Denied> {
        self.parts.make_room(alloc, &self.table.rows, set)
    }

    fn discard(&mut self) {
        self.give_back();
    }
}

impl<P: ByItself> Commits for Collecting<P> {
    fn commit<A: Assigns>(&mut self, set: &A, now: u32) {
        self.assign(set, now);
    }
}

impl<P: Collected> Tables for Collecting<P> {
    ghost use Rattle.rm_group.specs.Listed.{is_settable};

    ghost tables = { P.collection.tables };

    ghost can_be_set = { is_settable P.Columns.form.table };

    fn tables() -> &'static [TableObjects] {
        P::tables()
    }

    ghost shows_listed = { P.laws.shows_listed };

    ghost refuses_listed = { P.laws.refuses_listed };
}

impl<P: Collected> Readable for Collecting<P> {
    ghost use Rattle.rm_collect.specs.Collection.{sampled};

    ghost sampleable = { P.collection.sampleable };

    ghost shown = { λ s now. sampled P.Columns.form P.collection s.rows s.parts now };

    fn value(&self, name: &Oid, now: u32) -> Option<Value<'_>> {
        self.sampled_at(name, now)
    }

    fn shows(&self, _now: u32) {
        prove!(self.table.rows.len() <= 32);
    }

    ghost recurring = { P.laws.recurring };
}

impl<P: ByFacts> Unfired for Collecting<P> {
    fn take_frame(&mut self, passing: &Passing<'_>) {
        self.frame(passing);
    }
}

impl<P: ByFacts> Unsampled for Collecting<P> {
    ghost use Rattle.rm_collect.specs.Sampled.{stands_sampled};

    ghost begins = { λ s settings earlier moment alarm reading stands later asked. stands_sampled P.Columns.form P.collection P.laws settings earlier moment alarm reading later s stands };
}

impl<P: Collected> NeverDue for Collecting<P> {
    ghost always_asked = { λ s moment. tt };
}
