// The bindings of a Set, as a list.
ghost use Rattle.std.specs.Prelude.{◌≡◌, ◌<◌, [], ◌∷◌, ◌++◌, false, length};
ghost use Rattle.rm_val.specs.Val.{val_of};
ghost use Rattle.rm_val.specs.Spellable.{IsSpellable, HasSpelling};

use crate::assigns::Assigns;
use arrayvec::ArrayVec;
use rm_val::{Oid, Value};
use std::marker::Model;

/// A variable, and the value that it is given. By default it has the empty name.
#[derive(Drop)]
struct Assigned<'a> {
    name: Oid,
    value: Value<'a>,
}

impl Default for Assigned<'_> {
    fn default() -> Self {
        Assigned {
            name: Oid::new(),
            value: Value::Null,
        }
    }
}

/// The bindings of a Set, at most so many and at most 128, kept inline. Octets in their values are lent.
#[derive(Drop)]
pub struct Assignments<'a, const MOST: usize> {
    items: ArrayVec<Assigned<'a>, MOST>,
}

impl<'a, const MOST: usize> Model for Assignments<'a, MOST> {
    ghost use Rattle.std.specs.Prelude.{◌≤◌, length};
    ghost use Rattle.rm_model.specs.Judgement.{Bindings};
    ghost use Rattle.rm_group.specs.Assignments.{given_in, AreSpelled};

    ghost Value = { Bindings };

    ghost view = { λ g. given_in g.items.items };

    ghost invariant = { λ g. AreSpelled g.items.items × (length g.items.items ≤ 128) };
}

impl<'a, const MOST: usize> Assignments<'a, MOST> {
    ghost use Rattle.rm_group.specs.Assignments.{giving};

    /// No bindings.
    pub fn new() -> Assignments<'a, MOST>
        ensures { result ≡ [] }
    {
        Assignments {
            items: ArrayVec::new(),
        }
    }

    /// Whether there is no room for one more.
    pub fn is_full(&self) -> bool
        ensures { result ≡ false → (length self.now < MOST) × (length self.now < 128) }
    {
        let count = self.items.len();
        count >= MOST || count >= 128
    }

    /// Appends a binding.
    pub fn push(&mut self, name: Oid, value: Value<'a>)
        requires room { length self.old < MOST }
        requires few { length self.old < 128 }
        requires name { IsSpellable name }
        requires value { HasSpelling (val_of value) }
        ensures { self.new ≡ self.old ++ giving name (val_of value.entry) ∷ [] }
    {
        self.items.push(Assigned { name, value });
    }
}

impl<const MOST: usize> Assigns for Assignments<'_, MOST> {
    ghost bindings = { λ g. g };

    fn count(&self) -> usize {
        self.items.len()
    }

    fn name(&self, place: usize) -> &Oid {
        &self.items[place].name
    }

    fn value(&self, place: usize) -> &Value<'_> {
        &self.items[place].value
    }
}
