// The rows by their rank of entry, over a ring of links in that order.

ghost use Rattle.std.specs.Prelude.{◌≡◌, ◌+◌, List, Some, IfSome, IfNone, slice_get, option_copied};
ghost use Rattle.std.specs.VecDeque.{deque_len, deque_capacity};
ghost use denote.RawPtr.{Ptr};
ghost use Rattle.rm_rows.specs.Stored.{In};
ghost use Rattle.rm_rows.specs.Table.{order_of};
ghost use Rattle.rm_rows.specs.Index.{HasEntry, IsByEntry, IsWithout, Kept, rows_in};

use crate::index::node_of;
use rm_evicting::{Key, Row};
use rm_recency::{Node, RecencyList};
use std::collections::VecDeque;

/// The place of the row that was entered by that stamp.
fn find_entry<K, V>(
    list: &RecencyList<K, V>,
    entered: &VecDeque<*mut Node<K, V>>,
    entry: u64,
) -> Option<usize>
    requires { IsByEntry list.now entered.now.items }
    ensures some { IfSome result (λ i. (p : Ptr) × (slice_get entered.now.items i ≡ Some p) × HasEntry list.now p entry) }
    ensures none { IfNone result ((p : Ptr) → In p entered.now.items → ¬ (HasEntry list.now p entry)) }
{
    let mut low = 0;
    let mut high = entered.len();
    while low < high {
        let middle = low + (high - low) / 2;
        let here = list.row(entered[middle]).entry;
        if here == entry {
            return Some(middle);
        }
        if here < entry {
            low = middle + 1;
        } else {
            high = middle;
        }
    }
    None
}

/// Takes the link to the row that was entered by that stamp out of the ring.
pub(crate) fn take_entered<K, V>(
    list: &RecencyList<K, V>,
    entered: &mut VecDeque<*mut Node<K, V>>,
    entry: u64,
)
    requires order { IsByEntry list.now entered.old.items }
    requires held { (p : Ptr) × In p entered.old.items × HasEntry list.now p entry }
    ensures items { (p : Ptr) → In p entered.old.items → HasEntry list.now p entry → IsWithout entered.old.items p entered.new.items }
    ensures len { deque_len entered.new + 1 ≡ deque_len entered.old }
    ensures capacity { deque_capacity entered.new ≡ deque_capacity entered.old }
{
    match find_entry(list, entered, entry) {
        Some(place) => {
            entered.remove(place);
        }
        None => unreachable!(),
    }
}

/// The row that entered after so many others.
pub(crate) fn nth<'a, K: Key, V>(
    list: &'a RecencyList<K, V>,
    entered: &VecDeque<*mut Node<K, V>>,
    place: usize,
) -> Option<&'a Row<K, V>>
    requires { (xs : List Ptr) × Kept K.cmp list.now entered.now.items xs }
    ensures { option_copied result ≡ slice_get (rows_in list.now entered.now.items) place }
{
    match entered.get(place) {
        Some(ptr) => Some(list.row(*ptr)),
        None => None,
    }
}

/// The rank by entry of the row of a key, from 1.
pub(crate) fn rank<K: Key, V>(
    list: &RecencyList<K, V>,
    entered: &VecDeque<*mut Node<K, V>>,
    index: &Vec<*mut Node<K, V>>,
    key: &K,
) -> Option<usize>
    requires { Kept K.cmp list.now entered.now.items index.now.items }
    ensures { result ≡ order_of K.eq key.now (rows_in list.now entered.now.items) }
{
    match node_of(list, index, key) {
        Some(ptr) => match find_entry(list, entered, list.row(ptr).entry) {
            Some(place) => Some(place + 1),
            None => None,
        },
        None => None,
    }
}
