// What a Set makes of the rows and of what they collect.
ghost use Rattle.std.specs.Prelude.{◌≡◌, ℕ, ◌≤◌, List, ◌∷◌};
ghost use Rattle.rm_model.specs.Counting.{Counting};
ghost use Rattle.rm_model.specs.Journal.{Act, Assignments, Journal, assigns, last_moment, value_given};
ghost use Rattle.rm_collect.specs.Rows.{GoesOnOrSawNone};
ghost use Rattle.rm_collect.specs.Group.{Stands, HasBegun, HasBegunSet, IsPrepared, IsReleased, IsStocked, frames_given, last_given};

use crate::collected::Collected;
use crate::collecting::Collecting;
use rm_group::Assigns;

impl<P: Collected> Collecting<P> {
    /// Begins a Set, for which all was made ready, at a moment in milliseconds. A row that becomes valid begins to collect at that
    /// moment, and one that isn't valid any more loses what it has. No memory is taken.
    pub fn assign<A: Assigns>(&mut self, set: &A, now: u32)
        requires later { last_given self.old ≤ now }
        requires ready { IsPrepared P.Columns.form P.collection self.old (A.bindings set.now) }
        requires stocked { IsStocked self.old }
        ensures last { last_given self.new ≡ now }
        ensures frames { frames_given self.new ≡ frames_given self.old }
        ensures stocked { IsStocked self.new }
        ensures begun { (settings : Counting) (journal : Journal) (values : Assignments) → Stands P.Columns.form P.collection self.old settings journal
            → last_moment journal ≤ now
            → ((name : List ℕ) → value_given values name ≡ value_given (A.bindings set.now) name)
            → HasBegun P.Columns.form P.collection self.new settings (assigns now values ∷ journal) }
        ensures released { IsReleased P.Columns.form self.new }
    {
        prove!(self.table.rows.len() <= 32);
        self.table.rows.commit(set);
        prove!(self.table.rows.len() <= 32);
        self.table.last = now;
        let table = &self.table;
        self.parts.follow(&table.rows, table);
        self.give_back();
    }

    /// A law: over a Set at a moment in milliseconds, for which all was made ready, each row goes on, or has seen no frame after it. It
    /// does nothing.
    pub fn goes_on<A: Assigns>(&self, set: &A, now: u32)
        requires ready { IsPrepared P.Columns.form P.collection self.now (A.bindings set.now) }
        ensures { (settings : Counting) (journal : Journal) (values : Assignments) → Stands P.Columns.form P.collection self.now settings journal
            → last_moment journal ≤ now
            → ((name : List ℕ) → value_given values name ≡ value_given (A.bindings set.now) name)
            → (row : ℕ) → GoesOnOrSawNone P.Columns.form.table row journal (assigns now values ∷ journal) }
    {}

    /// Gives storage back that no valid row needs, but for that of one row. No variable changes.
    pub(crate) fn give_back(&mut self)
        ensures last { last_given self.new ≡ last_given self.old }
        ensures frames { frames_given self.new ≡ frames_given self.old }
        ensures stocked { IsStocked self.old → IsStocked self.new }
        ensures stands { (settings : Counting) (journal : Journal) → Stands P.Columns.form P.collection self.old settings journal
            → Stands P.Columns.form P.collection self.new settings journal }
        ensures begun { (settings : Counting) (act : Act) (earlier : Journal) → HasBegunSet P.Columns.form P.collection self.old settings act earlier
            → HasBegunSet P.Columns.form P.collection self.new settings act earlier }
        ensures released { IsReleased P.Columns.form self.new }
    {
        self.parts.give_back(&self.table.rows);
    }
}
