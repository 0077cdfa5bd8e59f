// Walks of the rows by key, over the index.

ghost use Rattle.std.specs.Prelude.{◌≡◌, List, Some, ◌<◌, ◌≤◌, ◌^◌, ◌↔◌, IsTrue, IfSome, option_copied, option_map};
ghost use denote.RawPtr.{Ptr};
ghost use Rattle.rm_evicting.specs.declared.Row.{Row as RowOf};
ghost use Rattle.rm_recency.specs.Threads.{row_at};
ghost use Rattle.rm_rows.specs.Stored.{In};
ghost use Rattle.rm_rows.specs.Table.{IsAbove, IsNextKey, key_of, keys_of, from_mark};
ghost use Rattle.rm_rows.specs.Index.{Kept, IsCut, rows_in};

use crate::index::find;
use rm_evicting::{Key, Row};
use rm_recency::{Node, RecencyList};

/// The place in the index of the first key above another, or of the first where there is no other.
fn above<K: Key, V>(list: &RecencyList<K, V>, index: &Vec<*mut Node<K, V>>, key: Option<K>) -> usize
    requires { (es : List Ptr) × Kept K.cmp list.now es index.now.items }
    ensures { IsCut list.now index.now.items (IsAbove K.cmp key) result }
{
    match key {
        None => 0,
        Some(key) => match find(list, index, &key) {
            Ok(place) => place + 1,
            Err(place) => place,
        },
    }
}

/// Whether a row's tick isn't below a mark.
fn reaches<K, V>(row: &Row<K, V>, mark: u64) -> bool
    ensures reaches { IsTrue result ↔ (mark ≤ row.now.tick) }
    ensures fits { row.now.tick < 2 ^ 32 }
{
    row.tick as u64 >= mark
}

/// Whether every row's tick is below a mark, which the row of the last reference tells.
fn is_past<K: Key, V>(list: &RecencyList<K, V>, mark: u64) -> bool
    requires { (es : List Ptr) × (xs : List Ptr) × Kept K.cmp list.now es xs }
    ensures { IsTrue result → (es : List Ptr) (xs : List Ptr) (p : Ptr) (row : RowOf K V) → Kept K.cmp list.now es xs → In p xs → row_at list.now p ≡ Some row → row.tick < mark }
{
    match list.newest() {
        None => true,
        Some(ptr) => (list.row(ptr).tick as u64) < mark,
    }
}

/// The row of the least key above another among those whose tick isn't below a mark.
pub(crate) fn next_row<'a, K: Key, V>(
    list: &'a RecencyList<K, V>,
    index: &Vec<*mut Node<K, V>>,
    mark: u64,
    key: Option<K>,
) -> Option<&'a Row<K, V>>
    requires { (es : List Ptr) × Kept K.cmp list.now es index.now.items }
    ensures next { (es : List Ptr) → Kept K.cmp list.now es index.now.items → IsNextKey K.cmp (keys_of (from_mark mark (rows_in list.now es))) key (option_map key_of (option_copied result)) }
    ensures reached { IfSome result (λ row. (mark ≤ row.now.tick) × (row.now.tick < 2 ^ 32)) }
{
    if is_past(list, mark) {
        return None;
    }
    let first = above(list, index, key);
    for place in first..index.len() {
        let row = list.row(index[place]);
        if reaches(row, mark) {
            return Some(row);
        }
    }
    None
}
