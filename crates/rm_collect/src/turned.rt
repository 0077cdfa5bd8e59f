// What Sets turn for the rows of a control table, where another group says what they share.
ghost use Rattle.std.specs.Prelude.{◌≡◌, ℕ, ◌∷◌, length};
ghost use Rattle.rm_model.specs.Counting.{Counting};
ghost use Rattle.rm_model.specs.Journal.{Assignments, Journal, assigns, frames_in};
ghost use Rattle.rm_collect.specs.Turned.{IsByItself};
ghost use Rattle.rm_collect.specs.Group.{Stands, HasBegun, IsStocked, IsReleased, frames_given, last_given};

use crate::collected::Collected;
use crate::collecting::Collecting;
use rm_group::Group;
use rm_pool::Change;

/// What valid rows collect of which no other group knows: a Set is whole once it is begun.
pub trait ByItself: Collected {
    /// No other group makes a difference to it.
    ghost by_itself: { IsByItself Self.Collected.collection };
}

/// What valid rows collect by what they share, as the protocols that are counted, which a Set may turn.
pub trait Turned: Collected {
    /// Turns what a Set turns for a row that has begun it, by what all rows share after it. So many frames were given.
    fn turn(&mut self, shared: &Self::Shared, given: u32)
        ensures fits { (last : ℕ) → Self.Collected.collection.fits last given self.old → Self.Collected.collection.fits last given self.new }
        ensures turned { (settings : Counting) (moment : ℕ) (values : Assignments) (earlier : Journal) (row : ℕ) → length (frames_in earlier) ≡ given
            → Self.Collected.collection.suits shared.now settings (assigns moment values ∷ earlier)
            → Self.Collected.collection.has_begun settings (assigns moment values) earlier row self.old
            → Self.Collected.collection.is_of settings (assigns moment values ∷ earlier) row self.new };
}

/// What valid rows collect by what another group says.
pub trait ByOther<G: Group>: Turned {
    /// What rows share once the other group has done a Set, by what they shared before.
    fn shared_by(before: &Self::Shared, other: &G) -> Self::Shared
        ensures { (settings : Counting) (earlier later : Journal) → Self.Collected.collection.suits before.now settings earlier
            → G.stands other.now settings later → Self.Collected.collection.suits result settings later };
}

// What a Set turns for each row, by what all rows share after it.
#[derive(Drop)]
struct Turning<'a, P: Turned> {
    shared: &'a P::Shared,
    // How many frames were given.
    given: u32,
}

impl<P: Turned> Change<P> for Turning<'_, P> {
    ghost use Rattle.rm_collect.specs.Turned.{IsTurned};

    ghost allows = { λ s row part. Unit {0} };

    ghost makes = { λ s row part new. IsTurned P.collection s.shared.now s.given part new };

    fn change(&self, _row: u32, part: &mut P) {
        part.turn(self.shared, self.given);
    }
}

/// Completes a Set that was begun (`Collecting::assign`), once another group has done it: what the Set turns is turned for each row.
pub fn complete<G: Group, P: ByOther<G>>(collecting: &mut Collecting<P>, other: &G)
    ensures stands { (settings : Counting) (journal : Journal) → G.stands other.now settings journal
        → HasBegun P.Columns.form P.collection collecting.old settings journal → Stands P.Columns.form P.collection collecting.new settings journal }
    ensures frames { frames_given collecting.new ≡ frames_given collecting.old }
    ensures last { last_given collecting.new ≡ last_given collecting.old }
    ensures stocked { IsStocked collecting.old → IsStocked collecting.new }
    ensures released { IsReleased P.Columns.form collecting.old → IsReleased P.Columns.form collecting.new }
{
    let given = collecting.frames;
    let table = &mut collecting.table;
    table.shared = P::shared_by(&table.shared, other);
    let table = &collecting.table;
    let shared = &table.shared;
    collecting.parts.change_each(&Turning { shared, given });
}
