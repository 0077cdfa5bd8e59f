// The bindings of a Set.
ghost use Rattle.std.specs.Prelude.{◌≡◌, ◌<◌, ◌≤◌, length};
ghost use Rattle.rm_val.specs.Val.{val_of};
ghost use Rattle.rm_val.specs.Spellable.{IsSpellable, HasSpelling};
ghost use Rattle.rm_model.specs.Judgement.{Bindings, name_at, value_at};

use rm_val::{Oid, Value};

/// The bindings of a Set, in their order.
pub trait Assigns {
    /// The bindings, each a variable's name and the value that it is given.
    ghost bindings: { Self → Bindings };

    /// How many bindings there are, which is at most 128.
    fn count(&self) -> usize
        ensures value { result ≡ length (bindings self.now) }
        ensures fits { result ≤ 128 };

    /// The name in the binding at a place, from 0.
    fn name(&self, place: usize) -> &Oid
        requires { place < length (bindings self.now) }
        ensures value { result.now ≡ name_at (bindings self.now) place }
        ensures spelling { IsSpellable result.now };

    /// The value in the binding at a place, from 0.
    fn value(&self, place: usize) -> &Value<'_>
        requires { place < length (bindings self.now) }
        ensures value { val_of result.now ≡ value_at (bindings self.now) place }
        ensures spelling { HasSpelling (val_of result.now) };
}
