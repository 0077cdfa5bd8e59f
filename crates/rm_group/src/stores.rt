// What groups take for a Set before it is committed.
ghost use Rattle.std.specs.Prelude.{◌≡◌, ℕ, ◌≤◌, length, OnOk, OnErr, IfErr};
ghost use Rattle.rm_model.specs.Counting.{Counting};
ghost use Rattle.rm_model.specs.Journal.{Journal};
ghost use Rattle.rm_model.specs.Judgement.{Bindings};

use crate::assigns::Assigns;
use crate::denied::Denied;
use crate::group::Group;
use crate::look::Look;
use std::alloc::Global;

/// A group that is made ready for a Set, which may take storage. The Set is then committed, or what was made ready for it is given
/// back.
pub trait Stores: Group {
    /// The group has the storage of one row of each of its tables whose rows take storage while they are valid. A group without
    /// such a table always has.
    ghost stocked: { Self → Type 0 };

    /// After a journal there may be no memory for the row that the binding with that number, from 1, makes valid.
    ghost reserves: { Counting → Journal → Bindings → ℕ → Type 0 };

    /// The group is ready to commit a Set at a moment in milliseconds.
    ghost prepared: { Self → ℕ → Bindings → Type 0 };

    /// The group holds nothing for a Set that is to be committed.
    ghost released: { Self → Type 0 };

    /// Makes ready for a Set at a moment in milliseconds, with which both passes found nothing wrong, in a group that is
    /// stocked. Denied where there is no memory for a row that the Set makes valid beside another; a group that held nothing
    /// then holds nothing. No variable changes.
    fn prepare<A: Assigns, L: Look>(
        &mut self,
        alloc: Global,
        set: &A,
        now: u32,
        look: &L,
    ) -> Result<(), Denied>
        requires later { Self.Group.clock self.old ≤ now }
        requires accepted { Self.Group.accepts self.old now (A.bindings set.now) }
        requires stocked { stocked self.old }
        ensures clock { Self.Group.clock self.new ≡ Self.Group.clock self.old }
        ensures askable { (moment : ℕ) → Self.Group.askable self.old moment → Self.Group.askable self.new moment }
        ensures frames { Self.Group.frames self.new ≡ Self.Group.frames self.old }
        ensures stocked { stocked self.new }
        ensures stands { (settings : Counting) (journal : Journal) → Self.Group.stands self.old settings journal
            → Self.Group.stands self.new settings journal }
        ensures ready { OnOk result (prepared self.new now (A.bindings set.now)) }
        ensures released { OnErr result (released self.old → released self.new) }
        ensures denied { IfErr result (λ denied. (settings : Counting) (journal : Journal) → Self.Group.stands self.old settings journal
            → reserves settings journal (A.bindings set.now) denied.index) }
        ensures within { IfErr result (λ denied. denied.index ≤ length (A.bindings set.now)) };

    /// Gives back what was made ready for a Set that isn't committed. No variable changes.
    fn discard(&mut self)
        ensures clock { Self.Group.clock self.new ≡ Self.Group.clock self.old }
        ensures askable { (moment : ℕ) → Self.Group.askable self.old moment → Self.Group.askable self.new moment }
        ensures frames { Self.Group.frames self.new ≡ Self.Group.frames self.old }
        ensures stocked { stocked self.old → stocked self.new }
        ensures stands { (settings : Counting) (journal : Journal) → Self.Group.stands self.old settings journal
            → Self.Group.stands self.new settings journal }
        ensures released { released self.new };
}

/// A group that takes no storage, and that is ready for a Set once both passes found nothing wrong with it. What implements it is in
/// `Stores` too.
pub trait Storeless: Group {}

impl<G: Storeless> Stores for G {
    ghost stocked = { λ s. Unit {0} };

    ghost reserves = { λ settings journal bindings index. ⊥ };

    ghost prepared = { G.accepts };

    ghost released = { λ s. Unit {0} };

    fn prepare<A: Assigns, L: Look>(
        &mut self,
        _alloc: Global,
        _set: &A,
        _now: u32,
        _look: &L,
    ) -> Result<(), Denied> {
        Ok(())
    }

    fn discard(&mut self) {}
}
