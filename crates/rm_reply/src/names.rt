// Lists of names.
ghost use Rattle.std.specs.Prelude.{◌≡◌, ◌<◌, [], ◌∷◌, ◌++◌, length, Some, slice_get, slice_set};

use arrayvec::ArrayVec;
use rm_val::Oid;
use std::marker::Model;

/// A place in a list of names. By default it has the empty name.
#[derive(Drop)]
struct Asked {
    name: Oid,
}

impl Default for Asked {
    fn default() -> Asked {
        Asked { name: Oid::new() }
    }
}

/// A list of at most so many names, kept inline.
#[derive(Drop)]
pub(crate) struct Names<const MOST: usize> {
    items: ArrayVec<Asked, MOST>,
}

impl<const MOST: usize> Model for Names<MOST> {
    ghost use Rattle.std.specs.Prelude.{ℕ, List, length, map};
    ghost use Rattle.rm_reply.specs.declared.names.Asked.{Asked};

    ghost Value = { List (List ℕ) };

    ghost view = { λ n. map (λ (asked : Asked). asked.name) n.items.items };
}

impl<const MOST: usize> Names<MOST> {
    /// No names.
    pub fn new() -> Names<MOST>
        ensures { result ≡ [] }
    {
        Names {
            items: ArrayVec::new(),
        }
    }

    /// How many names there are.
    pub fn len(&self) -> usize
        ensures { result ≡ length self.now }
    {
        self.items.len()
    }

    /// The name at a place, counted from 0.
    pub fn at(&self, place: usize) -> &Oid
        requires { place < length self.now }
        ensures { slice_get self.now place ≡ Some result.now }
    {
        &self.items[place].name
    }

    /// Puts a name in the place of another, counted from 0.
    pub fn set(&mut self, place: usize, name: Oid)
        requires { place < length self.old }
        ensures { self.new ≡ slice_set self.old place name }
    {
        self.items[place] = Asked { name };
    }

    /// Appends a name.
    pub fn push(&mut self, name: Oid)
        requires { length self.old < MOST }
        ensures { self.new ≡ self.old ++ name ∷ [] }
    {
        self.items.push(Asked { name });
    }
}
