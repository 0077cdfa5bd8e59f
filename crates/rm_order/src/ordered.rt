// Keys in their order.

ghost use Rattle.std.specs.Prelude.{◌≡◌, ◌≤◌, List, [], length, IfOk, option_copied};

use crate::edits::{exchange, put};
use crate::reversible::Reversible;
use crate::search::{Over, first_key};
use rm_evicting::Key;
use rm_rows::{Above, Touch};
use rm_val::NoMemory;
use std::alloc::Global;
use std::marker::Model;

/// Keys, each above the one before it. Memory is reserved for so many.
#[derive(Drop)]
pub struct OrderedKeys<K: Key> {
    keys: Vec<K>,
}

impl<K: Key> Model for OrderedKeys<K> {
    ghost use Rattle.std.specs.Prelude.{vec_capacity};
    ghost use Rattle.rm_order.specs.Order.{Ordered, AreRising};

    ghost Value = { Ordered K };

    ghost view = { λ s. record { room = vec_capacity s.keys; keys = s.keys.items } };

    ghost invariant = { λ s. AreRising K.cmp s.keys.items };
}

impl<K: Key> OrderedKeys<K> {
    ghost use Rattle.rm_rows.specs.Table.{IsNextKey, IsFirstPassing, PassesUpward};

    /// No keys, and memory for so many. NoMemory where there is none.
    pub fn new(alloc: Global, room: usize) -> Result<OrderedKeys<K>, NoMemory>
        ensures { IfOk result (λ ordered. (ordered.keys ≡ []) × (room ≤ ordered.room)) }
    {
        match Vec::with_capacity(alloc, room) {
            Ok(keys) => Ok(OrderedKeys { keys }),
            Err(_) => Err(NoMemory),
        }
    }

    /// Takes every key away.
    pub fn clear(&mut self)
        ensures keys { self.new.keys ≡ [] }
        ensures room { self.new.room ≡ self.old.room }
    {
        self.keys.clear();
    }

    /// The least key above another, or of all where there is no other. None where there is none.
    pub fn after(&self, key: Option<&K>) -> Option<&K>
        ensures { IsNextKey K.cmp self.now.keys (option_copied key.entry) (option_copied result) }
    {
        match key {
            Some(key) => first_key(&self.keys, &Over { key: *key }),
            None => self.keys.first(),
        }
    }

    /// The least key above a point. None where there is none.
    pub fn first<A: Above<K>>(&self, point: &A) -> Option<&K>
        requires upward { PassesUpward K.cmp (A.is_above point.now) }
        ensures { IsFirstPassing K.cmp (A.is_above point.now) self.now.keys (option_copied result) }
    {
        first_key(&self.keys, point)
    }
}

impl<K: Reversible> OrderedKeys<K> {
    ghost use Rattle.rm_rows.specs.Table.{AreAfter};
    ghost use Rattle.rm_order.specs.Order.{AreReversed};

    /// Follows what a reference to a key did to the keys of a table, of which these are the reversed ones.
    pub fn follow(&mut self, key: &K, touch: &Touch<K>)
        requires few { (keys : List K) × (after : List K) × AreReversed K.reversing self.old.keys keys × AreAfter K.eq key.now touch.now keys after × (length after ≤ self.old.room) }
        ensures keys { (keys after : List K) → AreReversed K.reversing self.old.keys keys → AreAfter K.eq key.now touch.now keys after → AreReversed K.reversing self.new.keys after }
        ensures room { self.new.room ≡ self.old.room }
    {
        match touch {
            Touch::Held => {}
            Touch::Fresh => put(&mut self.keys, key.reversed()),
            Touch::Evicted(gone) => exchange(&mut self.keys, gone.reversed(), key.reversed()),
        }
    }
}
