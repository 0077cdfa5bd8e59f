// The rows of a table of the network layer, and those of the application layer in them.
ghost use Rattle.std.specs.Prelude.{◌≡◌};
ghost use Rattle.std.specs.Ordering.{nat_cmp};
ghost use Rattle.rm_rows.specs.Table.{row_of};
ghost use Rattle.rm_layers.specs.Applications.{AreApart};
ghost use Rattle.rm_layers.specs.Marks.{IsNextInstance, IsAboveName, IsAboveApplication, pair_cmp};
ghost use Rattle.rm_upper.specs.Cells.{network_in, application_in_row};
ghost use Rattle.rm_upper.specs.LayerTable.{LayerTable};
ghost use Rattle.rm_upper.specs.Shown.{protocols};
ghost use Rattle.rm_upper.specs.Sound.{AreSound};
ghost use Rattle.rm_upper.specs.Walk.{ShowsApplication, ShowsNetwork};

use crate::layer_key::LayerKey;
use rm_upper::{Counted, Counts, LayerCounts};

/// Rows of the network and application layer, as a table shows them.
pub trait LayerRows {
    /// The keys of network rows.
    type Key: LayerKey;

    /// What network rows count.
    type Counts: LayerCounts;

    /// The rows, by the keys under which they are shown.
    ghost table: { Self → LayerTable Self.Key Self.Counts Self.Counts.Application };

    /// A law: no key has two rows, each row has had a contribution, so that it shows something, and no protocol has two slots. It does
    /// nothing.
    fn are_sound(&self)
        ensures rows { AreSound Self.Key.eq (table self.now).layered.table.rows }
        ensures apart { AreApart (protocols (table self.now).layered.slots) };

    /// What the network row of a key shows. None where it has none.
    fn network(&self, key: &Self::Key) -> Option<Counted<Self::Counts>>
        ensures { result ≡ network_in (row_of Self.Key.eq key.now (table self.now).layered.table.rows) };

    /// What the application row of a key and a protocol shows. None where there is none.
    fn application(
        &self,
        key: &Self::Key,
        protocol: u32,
    ) -> Option<Counted<<Self::Counts as Counts>::Application>>
        ensures { result ≡ application_in_row (table self.now).layered.slots protocol (row_of Self.Key.eq key.now (table self.now).layered.table.rows) };

    /// The next instance of a network row, by mark and key, above a mark and maybe a key. None where there is none.
    fn network_after(&self, mark: u32, from: Option<Self::Key>) -> Option<(u32, Self::Key)>
        ensures { IsNextInstance Self.Key.cmp (ShowsNetwork Self.Key.eq (table self.now).layered) mark (IsAboveName Self.Key.cmp from) result };

    /// The next instance of an application row, by mark, key and protocol, above a mark, maybe a key and maybe a protocol. None where there
    /// is none.
    fn application_after(
        &self,
        mark: u32,
        from: Option<(Self::Key, Option<u32>)>,
    ) -> Option<(u32, (Self::Key, u32))>
        ensures { IsNextInstance (pair_cmp Self.Key.cmp nat_cmp) (ShowsApplication Self.Key.eq (table self.now).layered) mark (IsAboveApplication Self.Key.cmp from) result };
}
