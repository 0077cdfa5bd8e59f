// How much storage a pool has.
ghost use Rattle.std.specs.Prelude.{◌≡◌, ℕ, ◌<◌, ◌≤◌, ◌∷◌, [], ◌++◌, length, min, max, None, OnOk, OnErr, is_ok, position, if◌then◌else◌};
ghost use Rattle.rm_pool.specs.Pools.{in_use};
ghost use Rattle.rm_pool.specs.Room.{IsStocked};
ghost use Rattle.rm_pool.specs.Slots.{AreApart, kept, part_in, spare, is_spare};

use crate::part::Part;
use crate::pool::Pool;
use crate::slot::Slot;
use rm_val::NoMemory;
use std::alloc::Global;

impl<P: Part> Pool<P> {
    /// Takes the storage of one row, if the pool has none yet: there is then a part at least, spare or not. The rows keep their
    /// parts. NoMemory where there is none for it.
    pub fn reserve(&mut self, alloc: Global) -> Result<(), NoMemory>
        ensures parts { (row : ℕ) → part_in self.new row ≡ part_in self.old row }
        ensures more { length self.old ≤ length self.new }
        ensures no_more { length self.new ≤ max 1 (length self.old) }
        ensures ok { OnOk result (IsStocked self.new) }
    {
        self.grow(alloc, 1)
    }

    /// Takes storage until there are so many parts, the spare ones included. The rows keep theirs. NoMemory where there is none
    /// for it; there may then be more spare parts than before.
    pub fn grow(&mut self, alloc: Global, count: usize) -> Result<(), NoMemory>
        ensures parts { (row : ℕ) → part_in self.new row ≡ part_in self.old row }
        ensures more { length self.old ≤ length self.new }
        ensures no_more { length self.new ≤ max count (length self.old) }
        ensures ok { OnOk result (count ≤ length self.new) }
        ensures err { OnErr result (length self.new < count) }
    {
        while self.len() < count {
            let part = P::spare(alloc)?;
            self.add(alloc, part)?;
        }
        Ok(())
    }

    /// Gives storage back until there are so many parts, which no fewer rows have. The rows keep theirs.
    pub fn trim(&mut self, count: usize)
        requires { in_use self.old ≤ count }
        ensures parts { (row : ℕ) → part_in self.new row ≡ part_in self.old row }
        ensures size { length self.new ≡ min count (length self.old) }
    {
        if let Some(slots) = &mut self.slots {
            trim_in(slots, count);
        }
    }

    // Adds a part that is spare, unless there is no memory for it.
    fn add(&mut self, alloc: Global, part: P) -> Result<(), NoMemory>
        ensures { self.new ≡ (if is_ok result then self.old ++ spare part ∷ [] else self.old) }
    {
        add_to(&mut self.slots, alloc, part)
    }
}

// Adds a part that is spare, unless there is no memory for it.
fn add_to<P: Part>(slots: &mut Option<Vec<Slot<P>>>, alloc: Global, part: P) -> Result<(), NoMemory>
    ensures { kept slots.new ≡ (if is_ok result then kept slots.old ++ spare part ∷ [] else kept slots.old) }
{
    let slots = slots.get_or_insert(Vec::new(alloc));
    slots.push(Slot { row: None, part }).map_err(|_| NoMemory)
}

// Takes spare parts away until there are so many.
fn trim_in<P: Part>(slots: &mut Vec<Slot<P>>, count: usize)
    requires apart { AreApart slots.old.items }
    requires enough { in_use slots.old.items ≤ count }
    ensures parts { (row : ℕ) → part_in slots.new.items row ≡ part_in slots.old.items row }
    ensures size { length slots.new.items ≡ min count (length slots.old.items) }
    ensures apart { AreApart slots.new.items }
{
    while slots.len() > count {
        match first_spare(slots.as_slice()) {
            Some(place) => {
                slots.remove(place);
            }
            None => return,
        }
    }
}

/// Where the first spare part stands.
pub(crate) fn first_spare<P>(slots: &[Slot<P>]) -> Option<usize>
    ensures { result ≡ position is_spare slots.now }
{
    slots.iter().position(|slot| slot.row.is_none())
}
