// Things that fall due.
ghost use Rattle.std.specs.Prelude.{◌≡◌, ◌↔◌, ℕ, ◌+◌, ◌⊎◌, true, false};
ghost use Rattle.rm_group.specs.Due.{ComesFirst, IsFirst, IsSooner, HaveEnded, none_ends, both_end};
ghost use Rattle.rm_group.specs.declared.due.Due.{Due as Falling};

use crate::beside::Beside;
use crate::both::Both;
use crate::group::Group;
use crate::stores::Stores;
use crate::system::System;

/// What falls due: its moment in milliseconds, its kind and its number.
#[derive(Clone, Copy, Debug, PartialEq, Eq)]
pub struct Due {
    /// Its moment.
    pub moment: u64,
    /// Its kind.
    pub kind: u32,
    /// Its number.
    pub number: u32,
}

/// The kind of the samples of alarms, which is 1: at a moment the ends of reports come before them.
pub const SAMPLES: u32 = 1;

/// A group with things that fall due, each at a moment. At one moment those of a lower kind come first, and of one kind those with
/// a lower number. What is of a lower kind than samples ends by itself, as a report does: no act of the journal tells of it.
pub trait FallsDue: Group {
    /// Something falls due next.
    ghost falls_due: { Self → Falling → Type 0 };

    /// A bound of how many are left to take up to a moment, in milliseconds. Each that is taken makes it less.
    ghost left: { Self → ℕ → ℕ };

    /// The one that is taken next. None where nothing ever falls due.
    fn next_due(&self) -> Option<Due>
        ensures { IsFirst (falls_due self.now) result };

    /// The group may be asked at a moment in milliseconds exactly where all has ended that ends by itself and is due up to it.
    ghost asked: { (s : Self) (moment : ℕ) → Self.Group.askable s moment ↔ HaveEnded (falls_due s) moment };
}

/// A group of which nothing ever falls due.
pub trait NeverDue: Group {
    /// It may be asked at every moment.
    ghost always_asked: { (s : Self) (moment : ℕ) → Self.Group.askable s moment };
}

impl<G: NeverDue> FallsDue for G {
    ghost falls_due = { λ s due. ⊥ };

    ghost left = { λ s latest. 0 };

    fn next_due(&self) -> Option<Due> {
        None
    }

    ghost asked = { λ s moment. none_ends moment (G.always_asked s moment) };
}

impl NeverDue for System {
    ghost always_asked = { λ s moment. tt };
}

impl<G: FallsDue + Stores, H: FallsDue + Beside<G>> FallsDue for Both<G, H> {
    ghost falls_due = { λ s due. G.falls_due s.first due ⊎ H.falls_due s.second due };

    ghost left = { λ s latest. G.left s.first latest + H.left s.second latest };

    fn next_due(&self) -> Option<Due> {
        sooner(self.first.next_due(), self.second.next_due())
    }

    ghost asked = { λ s moment.
        both_end (G.falls_due s.first) (H.falls_due s.second) moment (G.asked s.first moment) (H.asked s.second moment) };
}

// Whether one comes before another, or is it.
fn comes_first(one: &Due, other: &Due) -> bool
    ensures yes { result ≡ true → ComesFirst one.now other.now }
    ensures no { result ≡ false → ComesFirst other.now one.now }
{
    if one.moment != other.moment {
        one.moment < other.moment
    } else if one.kind != other.kind {
        one.kind < other.kind
    } else {
        one.number <= other.number
    }
}

/// The sooner one of two.
pub fn sooner(one: Option<Due>, other: Option<Due>) -> Option<Due>
    ensures { IsSooner one other result }
{
    match (one, other) {
        (Some(one), Some(other)) => {
            if comes_first(&one, &other) {
                Some(one)
            } else {
                Some(other)
            }
        }
        (None, other) => other,
        (one, None) => one,
    }
}
