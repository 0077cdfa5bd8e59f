// The rows of a control row by their own keys.
ghost use Rattle.std.specs.Ordering.{nat_cmp};
ghost use Rattle.rm_layers.specs.Marks.{IsNextInstance, IsAboveName, IsAboveApplication, pair_cmp};
ghost use Rattle.rm_upper.specs.Walk.{ShowsApplication, ShowsNetwork};

use crate::held_table::HeldTable;
use crate::layer_key::LayerKey;
use crate::layer_rows::LayerRows;
use rm_upper::{Counted, Counts, LayerCounts};

impl<K: LayerKey, N: LayerCounts> LayerRows for HeldTable<K, N> {
    type Key = K;

    type Counts = N;

    ghost table = { λ held. held.table };

    fn are_sound(&self) {
        self.table.rows().are_sound();
    }

    fn network(&self, key: &K) -> Option<Counted<N>> {
        self.table.rows().network(key)
    }

    fn application(&self, key: &K, protocol: u32) -> Option<Counted<<N as Counts>::Application>> {
        self.table.rows().application(key, protocol)
    }

    fn network_after(&self, mark: u32, from: Option<K>) -> Option<(u32, K)>
        ensures { IsNextInstance K.cmp (ShowsNetwork K.eq self.now.table.layered) mark (IsAboveName K.cmp from) result }
    {
        self.table.rows().network_after(mark, from)
    }

    fn application_after(
        &self,
        mark: u32,
        from: Option<(K, Option<u32>)>,
    ) -> Option<(u32, (K, u32))>
        ensures { IsNextInstance (pair_cmp K.cmp nat_cmp) (ShowsApplication K.eq self.now.table.layered) mark (IsAboveApplication K.cmp from) result }
    {
        self.table.rows().application_after(mark, from)
    }
}
