// The rows of a control row in the order of their keys reversed.
ghost use Rattle.std.specs.Ordering.{nat_cmp};
ghost use Rattle.rm_layers.specs.Marks.{IsNextInstance, IsAboveName, IsAboveApplication, pair_cmp};
ghost use Rattle.rm_upper.specs.Walk.{ShowsApplication, ShowsNetwork};
ghost use Rattle.rm_reversed.specs.Reversed.{reversed_layered, reversed_table};

use crate::layer_key::LayerKey;
use crate::layer_rows::LayerRows;
use crate::two_orders::TwoOrders;
use rm_order::Reversible;
use rm_upper::{Counted, Counts, LayerCounts, application_after, network_after};

impl<K: LayerKey + Reversible, N: LayerCounts> LayerRows for TwoOrders<K, N> {
    type Key = K;

    type Counts = N;

    ghost table = { reversed_table K.reversing };

    fn are_sound(&self) {
        self.first().table.rows().are_sound();
    }

    fn network(&self, key: &K) -> Option<Counted<N>> {
        self.first().table.rows().network(&key.reversed())
    }

    fn application(&self, key: &K, protocol: u32) -> Option<Counted<<N as Counts>::Application>> {
        self.first()
            .table
            .rows()
            .application(&key.reversed(), protocol)
    }

    fn network_after(&self, mark: u32, from: Option<K>) -> Option<(u32, K)>
        ensures { IsNextInstance K.cmp (ShowsNetwork K.eq (reversed_layered K.reversing self.now.layered)) mark (IsAboveName K.cmp from) result }
    {
        network_after(self, mark, from)
    }

    fn application_after(
        &self,
        mark: u32,
        from: Option<(K, Option<u32>)>,
    ) -> Option<(u32, (K, u32))>
        ensures { IsNextInstance (pair_cmp K.cmp nat_cmp) (ShowsApplication K.eq (reversed_layered K.reversing self.now.layered)) mark (IsAboveApplication K.cmp from) result }
    {
        application_after(self, mark, from)
    }
}
