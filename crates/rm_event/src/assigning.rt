// What a Set makes of events.
ghost use Rattle.std.specs.Prelude.{◌≡◌, ℕ, List, ◌∷◌};
ghost use Rattle.rm_model.specs.Counting.{Counting};
ghost use Rattle.rm_model.specs.Journal.{Assignments, Journal, assigns, value_given};
ghost use Rattle.rm_event.specs.Group.{IsStocked, IsPrepared, IsReleased};
ghost use Rattle.rm_event.specs.Standing.{Stands};

use crate::events::Events;
use crate::log::NoEntries;
use rm_group::Assigns;

impl Events {
    /// Gives storage back, but for that of the valid rows, or of one row.
    pub(crate) fn give_back(&mut self)
        ensures stands { (settings : Counting) (journal : Journal) → Stands self.old settings journal → Stands self.new settings journal }
        ensures stocked { IsStocked self.old → IsStocked self.new }
        ensures released { IsReleased self.new }
    {
        self.logs.give_back(&self.rows);
    }

    /// Does a Set for which all is ready. A row that becomes valid begins a new log.
    pub(crate) fn assign<A: Assigns>(&mut self, set: &A)
        requires ready { IsPrepared self.old (A.bindings set.now) }
        ensures stands { (settings : Counting) (journal : Journal) (now : ℕ) (values : Assignments) → Stands self.old settings journal
            → ((name : List ℕ) → value_given values name ≡ value_given (A.bindings set.now) name)
            → Stands self.new settings (assigns now values ∷ journal) }
        ensures stocked { IsStocked self.old → IsStocked self.new }
    {
        prove!(self.rows.len() <= 32);
        self.rows.commit(set);
        self.logs.follow(&self.rows, &NoEntries);
    }
}
