// The keys of rows, as they stand in indexes.
ghost use Rattle.std.specs.Prelude.{◌≡◌, ◌+◌, ◌≤◌, ◌∷◌, ◌++◌, Some, length, take, drop};
ghost use Rattle.rm_walk_places.specs.Within.{AreBounds};
ghost use Rattle.rm_layer_tables.specs.Indexes.{KeyForm, IsForm, ip_bounds};

use rm_evicting::Key;
use rm_val::Oid;
use rm_walk_places::Bounds;

/// The key of a row of the network or application layer, an address or a pair of addresses, as it stands in the index of the row behind the
/// local index of ip.
pub trait LayerKey: Key {
    /// Its numbers.
    ghost form: { KeyForm Self };

    /// How many numbers each key has.
    fn count() -> usize
        ensures value { result ≡ form.count }
        ensures few { result ≤ 100 };

    /// Between which numbers the local index of ip and those of a key lie.
    fn bounds() -> &'static [Bounds]
        ensures value { result.now ≡ ip_bounds ∷ form.bounds }
        ensures few { length result.now ≤ 127 }
        ensures are { AreBounds result.now };

    /// Puts its numbers behind those of an index.
    fn put(&self, index: &mut Oid)
        requires { length index.old + form.count ≤ 128 }
        ensures value { index.new ≡ index.old ++ form.numbers self.now }
        ensures long { length index.new ≡ length index.old + form.count };

    /// The key whose numbers stand in an index from a place on. None where they are those of none.
    fn at(index: &Oid, from: usize) -> Option<Self>
        requires { from + form.count ≤ length index.now }
        ensures { result ≡ form.key_of (take form.count (drop from index.now)) };

    /// A law: the numbers of a key are its own. It does nothing.
    fn is_named(&self)
        ensures { form.key_of (form.numbers self.now) ≡ Some self.now };

    /// What holds of the numbers.
    ghost numbered: { IsForm form Self.cmp };
}
