// Points in the order of indexes.
ghost use Rattle.std.specs.Prelude.{drop};
ghost use Rattle.std.specs.Ordering.{nat_cmp, is_gt, is_ge};
ghost use Rattle.std.specs.Cmp.Lexicographic.{slice_cmp};

use crate::indexed::{Indexed, compare_index};
use rm_rows::Above;
use rm_val::Oid;

/// The keys whose indexes are above some numbers.
#[derive(Clone, Copy, Drop)]
pub(crate) struct OverIndex<'a> {
    /// The numbers.
    pub numbers: &'a Oid,
}

impl<K: Indexed> Above<K> for OverIndex<'_> {
    ghost is_above = { λ s key. is_gt (slice_cmp nat_cmp (K.index key) s.numbers.now) };

    fn is_above(&self, key: &K) -> bool {
        compare_index(key, self.numbers, 0).is_gt()
    }
}

/// The keys whose indexes aren't below the numbers of a name from a place on.
#[derive(Clone, Copy, Drop)]
pub(crate) struct FromIndex<'a> {
    /// The name.
    pub numbers: &'a Oid,
    /// The place.
    pub from: usize,
}

impl<K: Indexed> Above<K> for FromIndex<'_> {
    ghost is_above = { λ s key. is_ge (slice_cmp nat_cmp (K.index key) (drop s.from s.numbers.now)) };

    fn is_above(&self, key: &K) -> bool {
        compare_index(key, self.numbers, self.from).is_ge()
    }
}
