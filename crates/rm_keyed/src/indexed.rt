// Keys that are the indexes of their rows.
ghost use Rattle.std.specs.Prelude.{◌≡◌, ℕ, ◌<◌, ◌≤◌, List, ◌∷◌, length, drop, slice_index};
ghost use Rattle.std.specs.Ordering.{nat_cmp};
ghost use Rattle.std.specs.declared.cmp.Ordering.TheVariants.{Less};
ghost use Rattle.std.specs.Cmp.Lexicographic.{slice_cmp};
ghost use Rattle.rm_model.specs.Names.{Below};

use rm_evicting::Key;
use rm_val::Oid;
use std::cmp::Ordering;

/// A key that is the index of its row: some numbers, as many for each key. The keys stand in the order of their indexes.
pub trait Indexed: Key {
    /// The numbers.
    ghost index: { Self → List ℕ };

    /// How many they are.
    ghost width: { ℕ };

    /// How many they are.
    fn len(&self) -> usize
        ensures value { result ≡ width }
        ensures all { result ≡ length (index self.now) };

    /// The number at a place, counted from 0.
    fn number(&self, place: usize) -> u32
        requires { place < width }
        ensures { result ≡ slice_index (index self.now) place };

    /// A lesser key has the lesser index.
    ghost rises: { (one other : Self) → Self.cmp one other ≡ Less → Below (index one) (index other) };

    /// An index fits into a name, behind the number of a control row.
    ghost short: { width ≤ 127 };
}

/// The address as a string of variable length (RFC 1902, section 7.7): the count of its octets, and the octets.
impl Indexed for [u8; 6] {
    ghost use Rattle.std.proofs.Common.{rules};

    ghost index = { λ key. 6 ∷ key };

    ghost width = { 7 };

    fn len(&self) -> usize {
        7
    }

    fn number(&self, place: usize) -> u32 {
        if place == 0 {
            6
        } else {
            u32::from(self[place - 1])
        }
    }

    ghost rises = { λ one other less. less };

    ghost short = { Prim.search rules };
}

/// The index of a key.
pub fn index_of<K: Indexed>(key: &K) -> Oid
    ensures numbers { result ≡ K.index key.now }
    ensures fits { length result ≡ K.width }
{
    let mut index = Oid::new();
    for place in 0..key.len() {
        index.push(key.number(place)).unwrap();
    }
    index
}

/// How the index of a key compares with the numbers of a name from a place on: the first numbers that differ decide, and a proper
/// prefix is less.
pub fn compare_index<K: Indexed>(key: &K, numbers: &Oid, from: usize) -> Ordering
    ensures { result ≡ slice_cmp nat_cmp (K.index key.now) (drop from numbers.now) }
{
    let more = numbers.len().saturating_sub(from);
    for place in 0..key.len() {
        if place == more {
            return Ordering::Greater;
        }
        let order = key.number(place).cmp(&numbers.at(from + place));
        if order.is_ne() {
            return order;
        }
    }
    key.len().cmp(&more)
}
