// What rows count, and what is kept of it.

ghost use Rattle.std.specs.Prelude.{◌≡◌, ◌≤◌, length};
ghost use Rattle.rm_upper.specs.Tally.{Tally};
ghost use Rattle.rm_upper.specs.Kept.{NetworkRow, is_among, all_made};
ghost use Rattle.rm_layers.specs.Applications.{AreApart};
ghost use Rattle.rm_upper.specs.Shown.{blank_row, gained_value, protocols};
ghost use Rattle.rm_upper.specs.Cells.{counted_by};

use crate::slots::{KeptApplication, Slot};
use rm_evicting::Blank;

/// What the network row of a key counts, which is also what a frame that names the key adds to it, and what its application rows make of
/// that.
pub trait Counts: Copy {
    /// What an application row of the key counts.
    type Application: Copy;

    /// What rows make of gains.
    ghost tally: { Tally Self Self.Application };

    /// What a network row counts that was just entered.
    fn none() -> Self
        ensures { result ≡ tally.blank };

    /// Adds a gain to it.
    fn add(&mut self, gain: &Self)
        ensures { self.new ≡ tally.add self.old gain.now };

    /// What an application row counts before its first contribution.
    fn no_application() -> Self::Application
        ensures { result ≡ tally.none };

    /// Adds a gain to what an application row counts.
    fn add_to(application: &mut Self::Application, gain: &Self)
        ensures { application.new ≡ tally.more application.old gain.now };
}

/// Counts that are kept in network rows.
pub trait LayerCounts: Counts {
    /// What is kept of a network row: a `NetworkRow`, named here so that its size is known where it is made.
    type Row: Blank;

    /// How contracts see what is kept.
    ghost seen: { Self.Row → NetworkRow Self Self.Application };

    /// A network row takes a contribution, which comes to the slots of the protocols on its path; no protocol has two. Tells how many
    /// application rows it makes.
    fn gain(
        row: &mut Self::Row,
        slots: &[Option<Slot>; 32],
        path: &[u32],
        stamp: u64,
        tick: u32,
        gain: &Self,
    ) -> u32
        requires apart { AreApart (protocols slots.now) }
        ensures value { seen row.new ≡ gained_value Self.tally slots.now path.now stamp tick (seen row.old) gain.now }
        ensures made { result ≡ all_made (is_among path.now) slots.now (seen row.old).applications }
        ensures few { result ≤ 32 };

    /// What a network row shows, by the tick of its last contribution. None before its first one.
    fn network(row: &Self::Row, tick: u32) -> Option<Counted<Self>>
        ensures { result ≡ counted_by tick (seen row.now).created (seen row.now).sums };

    /// Its application rows, in slots.
    fn applications(row: &Self::Row) -> &[Option<KeptApplication<Self::Application>>]
        ensures value { result.now ≡ (seen row.now).applications }
        ensures each { length result.now ≡ 32 };

    /// A row that was just entered has nothing.
    ghost starts: { seen Self.Row.blank_value ≡ blank_row Self.tally.blank };
}

/// What a row shows: the ticks of its first and of its last contribution, in hundredths of a second, and what its contributions add up to.
#[derive(Clone, Copy, PartialEq, Eq, Debug)]
pub struct Counted<S> {
    /// The tick at which it was made.
    pub created: u32,
    /// The tick up to which it stands at marks.
    pub tick: u32,
    /// What it counts.
    pub sums: S,
}
