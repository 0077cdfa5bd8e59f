// Groups that do a Set by themselves.
ghost use Rattle.std.specs.Prelude.{◌≡◌, ℕ, ◌≤◌, List, ◌∷◌};
ghost use Rattle.rm_model.specs.Counting.{Counting};
ghost use Rattle.rm_model.specs.Journal.{Assignments, Journal, assigns, last_moment, value_given};

use crate::assigns::Assigns;
use crate::stores::Stores;

/// A group that does a Set by itself: what it keeps is whole then.
pub trait Commits: Stores {
    /// Does a Set at a moment in milliseconds, for which it was made ready, and at which the group may be asked. The values act
    /// all at once: of each variable the first binding counts. No memory is taken.
    fn commit<A: Assigns>(&mut self, set: &A, now: u32)
        requires later { Self.Group.clock self.old ≤ now }
        requires ready { Self.Stores.prepared self.old now (A.bindings set.now) }
        requires stocked { Self.Stores.stocked self.old }
        ensures clock { Self.Group.clock self.new ≤ now }
        ensures frames { Self.Group.frames self.new ≡ Self.Group.frames self.old }
        ensures stocked { Self.Stores.stocked self.new }
        ensures stands { (settings : Counting) (journal : Journal) (values : Assignments) → Self.Group.stands self.old settings journal
            → last_moment journal ≤ now → Self.Group.askable self.old now
            → ((name : List ℕ) → value_given values name ≡ value_given (A.bindings set.now) name)
            → Self.Group.stands self.new settings (assigns now values ∷ journal) }
        ensures released { Self.Stores.released self.new };
}
