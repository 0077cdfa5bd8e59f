// Walks of the rows by their indexes.
ghost use Rattle.std.specs.Prelude.{◌≡◌, ◌≤◌, length, drop, IfSome};
ghost use Rattle.std.specs.Option.{option_copied};
ghost use Rattle.rm_model.specs.Names.{IsLeastAbove};
ghost use Rattle.rm_model.specs.Numbers.{IsNumberAbove};
ghost use Rattle.rm_keyed.specs.Indexes.{key_with, is_index_of, key_ranked, is_rank, is_rank_of};

use crate::above::{FromIndex, OverIndex};
use crate::counts::Counts;
use crate::indexed::{Indexed, compare_index, index_of};
use crate::key_order::KeyOrder;
use crate::keyed::Keyed;
use rm_evicting::{Blank, Key};
use rm_nested::{first_number, one_number_above};
use rm_rows::Rows;
use rm_val::Oid;

/// The least index of a key above some numbers. None where there is none.
pub fn key_above<K: Indexed, O: KeyOrder<K>>(keys: &O, numbers: &Oid) -> Option<Oid>
    ensures least { IsLeastAbove (is_index_of K.index (O.keys keys.now)) numbers.now result }
    ensures fits { IfSome result (λ index. length index ≤ K.width) }
{
    match keys.least(&OverIndex { numbers }) {
        Some(key) => Some(index_of(key)),
        None => None,
    }
}

/// The key whose index is the numbers of a name from a place on. None where there is none.
pub fn key_at<'a, K: Indexed, O: KeyOrder<K>>(
    keys: &'a O,
    numbers: &Oid,
    from: usize,
) -> Option<&'a K>
    ensures { option_copied result ≡ key_with K.index (O.keys keys.now) (drop from numbers.now) }
{
    let key = keys.least(&FromIndex { numbers, from })?;
    if compare_index(key, numbers, from).is_eq() {
        Some(key)
    } else {
        None
    }
}

/// The least rank of a row above the first of some numbers, as an index. None where there is none.
pub fn rank_above<K: Key, V: Counts>(keyed: &Keyed<K, V>, numbers: &Oid) -> Option<Oid>
    ensures least { IsLeastAbove (is_rank_of keyed.now.rows.rows) numbers.now result }
    ensures fits { IfSome result (λ index. length index ≤ 1) }
{
    let rows = keyed.rows().len() as u32;
    one_number_above(numbers, rank_after(rows, first_number(numbers)))
}

/// The key of the row whose rank is the one number of a name from a place on. None where there is none.
pub fn key_ranked<'a, K: Key, V: Blank>(
    rows: &'a Rows<K, V>,
    numbers: &Oid,
    from: usize,
) -> Option<&'a K>
    ensures { option_copied result ≡ key_ranked rows.now.rows (drop from numbers.now) }
{
    if numbers.len().saturating_sub(from) == 1 {
        rows.made(numbers.at(from) as usize)
    } else {
        None
    }
}

// The least rank above a number, where there are so many rows.
fn rank_after(rows: u32, rank: u32) -> Option<u32>
    ensures { IsNumberAbove (is_rank rows) rank result }
{
    if rank < rows { Some(rank + 1) } else { None }
}
