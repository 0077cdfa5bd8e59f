//! What a table with room for a number of rows holds after a list of references, where the row that was referred to least
//! recently gives way to a new one.
#![tactic(auto)]

ghost use Rattle.std.specs.Prelude.{◌≡◌, ℕ, ◌+◌, ◌<◌, List, Some, slice_get};
ghost use Rattle.std.specs.declared.cmp.Ordering.TheVariants.{Equal};
ghost use Rattle.rm_evicting.specs.Mention.{Mention, keys};
ghost use Rattle.rm_evicting.specs.Held.{Rising, order, is_eviction, since_entry};
ghost use Rattle.rm_evicting.specs.Row.{takes_place, table};
ghost use Rattle.rm_evicting.specs.Stands.{IsTotal, Stands};
ghost use Rattle.rm_evicting.specs.Neighbours.{from_entry, IsLeastEntry};

mod octets;

use octets::compare_octets;
use std::cmp::Ordering;

/// What finds a row in its table: two keys that compare equal are the same.
pub trait Key: Ord + Copy {
    /// The order of two keys, which is that of `cmp`: for keys that can tell it in fewer steps.
    fn compare(&self, other: &Self) -> Ordering
        ensures { result ≡ Self.cmp self.now other.now };

    /// Keys that compare equal are the same.
    ghost exact: { (a b : Self) → Self.cmp a b ≡ Equal → a ≡ b };
}

/// What the references to a key add up to: it begins blank.
pub trait Blank: Copy {
    /// What it begins with.
    ghost blank_value: { Self };

    /// The value of a row that was just entered.
    fn blank() -> Self
        ensures { result ≡ blank_value };

    /// Makes a value that one, in its place.
    fn empty(&mut self)
        ensures { self.new ≡ blank_value }
    {
        *self = Self::blank();
    }
}

/// A row of a table: its key, the stamps of its entry and of its last reference, the tick of the last one, in hundredths of a second, and
/// what its references have added up to. References are stamped as they come, each with a greater number. What a row is found by lies together.
#[derive(Clone, Copy)]
pub struct Row<K, V> {
    pub key: K,
    pub entry: u64,
    pub last: u64,
    pub tick: u32,
    pub value: V,
}

impl<const N: usize> Key for [u8; N] {
    ghost use Rattle.std.proofs.lemmas.Map.Lookups.{exact_bytes};

    ghost exact = { exact_bytes };

    fn compare(&self, other: &[u8; N]) -> Ordering {
        compare_octets(self, other)
    }
}

/// After every list of mentions whose stamps rise, the table that took them one by one stands for them: it has one row for each key
/// that is held, in order of entry, with what the key's mentions since its entry come to.
pub fn stands_for<K: Key, V, C>()
    ensures { (blank : V) (add : V → C → V) (capacity : ℕ) (mentions : List (Mention K C)) → 0 < capacity → Rising mentions
        → Stands K.eq (IsTotal blank add) capacity mentions (table K.eq blank add capacity mentions) }
{}

/// The row at a place has the rank of that place, and a reference puts a row out exactly where it is an eviction.
pub fn ranks<K: Key, V, C>()
    ensures order { (blank : V) (add : V → C → V) (capacity : ℕ) (mentions : List (Mention K C)) (rows : List (Row K V)) → Stands K.eq (IsTotal blank add) capacity mentions rows
        → (place : ℕ) (row : Row K V) → slice_get rows place ≡ Some row → order K.eq capacity row.key mentions ≡ place + 1 }
    ensures evicts { (blank : V) (add : V → C → V) (capacity : ℕ) (mentions : List (Mention K C)) (rows : List (Row K V)) → Stands K.eq (IsTotal blank add) capacity mentions rows
        → (key : K) → takes_place K.eq capacity key rows ≡ is_eviction K.eq capacity key (keys mentions) }
{}

/// The entry of a key, its last arrival, is the earliest of its references from which on no two neighbouring ones have as many other
/// keys between them as there is room for rows.
pub fn entries<K: Key, C>()
    ensures keys { (capacity : ℕ) (key : K) (mentions : List (Mention K C)) → keys (since_entry K.eq capacity key mentions) ≡ from_entry K.eq capacity key (keys mentions) }
    ensures least { (capacity : ℕ) (key : K) (keys : List K) → IsLeastEntry K.eq capacity key keys }
{}
