// What a Set makes of alarms.
ghost use Rattle.std.specs.Prelude.{◌≡◌, ℕ, List, ◌∷◌};
ghost use Rattle.rm_model.specs.Counting.{Counting};
ghost use Rattle.rm_model.specs.Journal.{Assignments, Journal, assigns, value_given};
ghost use Rattle.rm_alarm.specs.Group.{AreFine, HasForgotten};
ghost use Rattle.rm_alarm.specs.Standing.{Stands, AreBased, AreRead};

use crate::alarms::Alarms;
use crate::change::{Forgetting, ReadingBase, Settling};
use crate::due::earliest;
use rm_group::{Assigns, Look};

impl Alarms {
    /// Remembers for a Set, with which nothing is wrong, what the variables of the alarms read that it may make valid, at its
    /// moment in milliseconds.
    pub fn remember<A: Assigns, L: Look>(&mut self, set: &A, now: u32, look: &L)
        requires { AreFine self.old (A.bindings set.now) }
        ensures fine { AreFine self.new (A.bindings set.now) }
        ensures stands { (settings : Counting) (journal : Journal) → Stands self.old settings journal
            → Stands self.new settings journal }
        ensures based { (settings : Counting) (journal : Journal) → AreBased self.old settings journal
            → AreBased self.new settings journal }
        ensures read { (settings : Counting) (journal : Journal)
            → ((name : List ℕ) → L.readings look.now now name ≡ settings.readings journal now name)
            → AreRead self.new settings journal now (A.bindings set.now) }
    {
        self.rows.change_each(&ReadingBase { set, look, now });
    }

    /// Does a Set, with which nothing is wrong, at a moment in milliseconds. An alarm that becomes valid starts from what was
    /// remembered for it.
    pub fn assign<A: Assigns>(&mut self, set: &A, now: u32)
        requires { AreFine self.old (A.bindings set.now) }
        ensures stands { (settings : Counting) (journal : Journal) (values : Assignments) → Stands self.old settings journal
            → ((name : List ℕ) → value_given values name ≡ value_given (A.bindings set.now) name)
            → Stands self.new settings (assigns now values ∷ journal) }
        ensures based { (settings : Counting) (journal : Journal) (values : Assignments) → Stands self.old settings journal
            → AreBased self.old settings journal → AreRead self.old settings journal now (A.bindings set.now)
            → ((name : List ℕ) → value_given values name ≡ value_given (A.bindings set.now) name)
            → AreBased self.new settings (assigns now values ∷ journal) }
        ensures forgotten { HasForgotten self.new }
    {
        prove!(self.rows.len() <= 32);
        self.rows.commit(set);
        self.rows.change_each(&Settling { now });
        self.next = earliest(&self.rows);
    }

    /// Forgets what was remembered for a Set.
    pub fn forget(&mut self)
        ensures stands { (settings : Counting) (journal : Journal) → Stands self.old settings journal
            → Stands self.new settings journal }
        ensures based { (settings : Counting) (journal : Journal) → AreBased self.old settings journal
            → AreBased self.new settings journal }
        ensures forgotten { HasForgotten self.new }
    {
        self.rows.change_each(&Forgetting);
    }
}
