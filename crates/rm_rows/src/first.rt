// The first row above a point, over the index.

ghost use Rattle.std.specs.Prelude.{◌≡◌, Bool, true, List, option_copied, option_map};
ghost use denote.RawPtr.{Ptr};
ghost use Rattle.rm_rows.specs.Table.{IsFirstPassing, PassesUpward, key_of, keys_of};
ghost use Rattle.rm_rows.specs.Index.{IsIndex, Kept, IsCut, rows_in};

use rm_evicting::{Key, Row};
use rm_recency::{Node, RecencyList};

/// Which keys lie above a point in their order.
pub trait Above<K> {
    /// Whether a key lies above it.
    ghost is_above: { Self → K → Bool };

    /// Whether a key lies above it.
    fn is_above(&self, key: &K) -> bool
        ensures { result ≡ is_above self.now key.now };
}

/// The place in the index of the first key above a point, or its end where there is none.
fn first_place<K: Key, V, A: Above<K>>(
    list: &RecencyList<K, V>,
    index: &[*mut Node<K, V>],
    point: &A,
) -> usize
    requires index { IsIndex K.cmp list.now index.now }
    requires upward { PassesUpward K.cmp (A.is_above point.now) }
    ensures { IsCut list.now index.now (λ k. A.is_above point.now k ≡ true) result }
{
    let mut low = 0;
    let mut high = index.len();
    while low < high {
        let middle = low + (high - low) / 2;
        if point.is_above(&list.row(index[middle]).key) {
            high = middle;
        } else {
            low = middle + 1;
        }
    }
    low
}

/// The row of the least key above a point.
pub(crate) fn first_row<'a, K: Key, V, A: Above<K>>(
    list: &'a RecencyList<K, V>,
    index: &Vec<*mut Node<K, V>>,
    point: &A,
) -> Option<&'a Row<K, V>>
    requires kept { (es : List Ptr) × Kept K.cmp list.now es index.now.items }
    requires upward { PassesUpward K.cmp (A.is_above point.now) }
    ensures { (es : List Ptr) → Kept K.cmp list.now es index.now.items → IsFirstPassing K.cmp (A.is_above point.now) (keys_of (rows_in list.now es)) (option_map key_of (option_copied result)) }
{
    match index.get(first_place(list, index, point)) {
        Some(ptr) => Some(list.row(*ptr)),
        None => None,
    }
}
