// A key that comes among keys that rise, or takes the place of another.

ghost use Rattle.std.specs.Prelude.{◌≡◌, ◌<◌, ◌↔◌, ◌⊎◌, Contains, vec_len, vec_capacity};
ghost use Rattle.rm_rows.specs.Index.{place_without};
ghost use Rattle.rm_order.specs.Order.{AreRising};

use crate::search::{UpFrom, first_place};
use rm_evicting::Key;
use rm_rows::move_item;

/// Puts in a key that isn't there.
pub(crate) fn put<K: Key>(keys: &mut Vec<K>, key: K)
    requires rising { AreRising K.cmp keys.old.items }
    requires absent { ¬ (Contains keys.old.items key) }
    requires room { vec_len keys.old < vec_capacity keys.old }
    ensures rising { AreRising K.cmp keys.new.items }
    ensures keys { (k : K) → Contains keys.new.items k ↔ (Contains keys.old.items k ⊎ (k ≡ key)) }
    ensures capacity { vec_capacity keys.new ≡ vec_capacity keys.old }
{
    let place = first_place(keys, &UpFrom { key });
    match keys.insert(place, key) {
        Ok(()) => {}
        Err(_) => unreachable!(),
    }
}

// Where a place lies once the item at another has gone.
fn place_left(gone: usize, place: usize) -> usize
    ensures { result ≡ place_without gone place }
{
    if gone < place { place - 1 } else { place }
}

/// Takes a key away and puts in one that isn't there. The keys between both places move by one.
pub(crate) fn exchange<K: Key>(keys: &mut Vec<K>, gone: K, key: K)
    requires rising { AreRising K.cmp keys.old.items }
    requires held { Contains keys.old.items gone }
    requires absent { ¬ (Contains keys.old.items key) }
    ensures rising { AreRising K.cmp keys.new.items }
    ensures keys { (k : K) → Contains keys.new.items k ↔ ((Contains keys.old.items k × (¬ (k ≡ gone))) ⊎ (k ≡ key)) }
    ensures capacity { vec_capacity keys.new ≡ vec_capacity keys.old }
{
    let from = first_place(keys, &UpFrom { key: gone });
    let to = first_place(keys, &UpFrom { key });
    move_item(keys, from, to);
    keys[place_left(from, to)] = key;
}
