// The places of keys that rise.

ghost use Rattle.std.specs.Prelude.{option_copied};
ghost use Rattle.std.specs.Ordering.{is_lt, is_le};
ghost use Rattle.rm_rows.specs.Table.{IsFirstPassing, PassesUpward};
ghost use Rattle.rm_order.specs.Order.{AreRising, IsCut};

use rm_evicting::Key;
use rm_rows::Above;

/// The keys above a key.
#[derive(Drop)]
pub(crate) struct Over<K> {
    /// The key.
    pub key: K,
}

impl<K: Key> Above<K> for Over<K> {
    ghost is_above = { λ s other. is_lt (K.cmp s.key other) };

    fn is_above(&self, other: &K) -> bool {
        self.key.compare(other).is_lt()
    }
}

/// A key, and those above it.
#[derive(Drop)]
pub(crate) struct UpFrom<K> {
    /// The key.
    pub key: K,
}

impl<K: Key> Above<K> for UpFrom<K> {
    ghost is_above = { λ s other. is_le (K.cmp s.key other) };

    fn is_above(&self, other: &K) -> bool {
        self.key.compare(other).is_le()
    }
}

/// The place of the first key above a point, or the end where there is none.
pub(crate) fn first_place<K: Key, A: Above<K>>(keys: &[K], point: &A) -> usize
    requires rising { AreRising K.cmp keys.now }
    requires upward { PassesUpward K.cmp (A.is_above point.now) }
    ensures { IsCut (A.is_above point.now) keys.now result }
{
    let mut low = 0;
    let mut high = keys.len();
    while low < high {
        let middle = low + (high - low) / 2;
        if point.is_above(&keys[middle]) {
            high = middle;
        } else {
            low = middle + 1;
        }
    }
    low
}

/// The least key above a point. None where there is none.
pub(crate) fn first_key<'a, K: Key, A: Above<K>>(keys: &'a [K], point: &A) -> Option<&'a K>
    requires rising { AreRising K.cmp keys.now }
    requires upward { PassesUpward K.cmp (A.is_above point.now) }
    ensures { IsFirstPassing K.cmp (A.is_above point.now) keys.now (option_copied result) }
{
    keys.get(first_place(keys, point))
}
