// Keys in their order.
ghost use Rattle.std.specs.Prelude.{List};
ghost use Rattle.std.specs.Option.{option_copied};
ghost use Rattle.rm_rows.specs.Table.{IsFirstPassing, PassesUpward, keys_of};

use rm_evicting::{Blank, Key};
use rm_order::OrderedKeys;
use rm_rows::{Above, Rows};

/// Keys of which the least above a point can be found.
pub trait KeyOrder<K: Key> {
    /// The keys.
    ghost keys: { Self → List K };

    /// The least key above a point. None where there is none.
    fn least<A: Above<K>>(&self, point: &A) -> Option<&K>
        requires upward { PassesUpward K.cmp (A.is_above point.now) }
        ensures { IsFirstPassing K.cmp (A.is_above point.now) (keys self.now) (option_copied result) };
}

impl<K: Key, V: Blank> KeyOrder<K> for Rows<K, V> {
    ghost keys = { λ table. keys_of table.rows };

    fn least<A: Above<K>>(&self, point: &A) -> Option<&K> {
        self.first(point)
    }
}

impl<K: Key> KeyOrder<K> for OrderedKeys<K> {
    ghost keys = { λ ordered. ordered.keys };

    fn least<A: Above<K>>(&self, point: &A) -> Option<&K> {
        self.first(point)
    }
}
