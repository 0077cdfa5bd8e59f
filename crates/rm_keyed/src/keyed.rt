// The rows of a table by the keys of frames.
ghost use Rattle.std.specs.Prelude.{◌≡◌, ◌+◌, ◌<◌, ◌≤◌, ◌^◌, List, [], ◌∷◌, length, IfOk};
ghost use Rattle.rm_evicting.specs.Mention.{Mention, refers, strays};
ghost use Rattle.rm_evicting.specs.Row.{credited};
ghost use Rattle.rm_rows.specs.Table.{AreAfter, keys_of};
ghost use Rattle.rm_keyed.specs.declared.keyed.TheConstants.{MOST_ROWS};
ghost use Rattle.rm_keyed.specs.Entered.{IsOf};

use crate::counts::Counts;
use rm_evicting::Key;
use rm_pool::Part;
use rm_rows::{Rows, Touch};
use rm_val::NoMemory;
use std::alloc::Global;
use std::marker::Model;

/// How many rows a table has at most.
pub const MOST_ROWS: u32 = 4096;

/// The rows of a table that frames enter by a key, each with what the mentions of its key have added since, and the tick at which the
/// last one gave way to another.
#[derive(Drop)]
pub struct Keyed<K: Key, V: Counts> {
    rows: Rows<K, V>,
    last_delete: u32,
    // The stamps of all references so far are below it.
    stamps: u64,
    // The ticks of all references so far aren't above it.
    tick: u32,
}

impl<K: Key, V: Counts> Model for Keyed<K, V> {
    ghost use Rattle.rm_keyed.specs.Entered.{Entered, IsReady};

    ghost Value = { Entered K V };

    ghost view = { λ s. record { rows = s.rows; last_delete = s.last_delete; stamps = s.stamps; tick = s.tick } };

    ghost invariant = { λ s. IsReady s.rows s.stamps s.tick };
}

impl<K: Key, V: Counts> Part for Keyed<K, V> {
    fn spare(alloc: Global) -> Result<Keyed<K, V>, NoMemory>
        ensures none { IfOk result (λ keyed. keyed.rows.rows ≡ []) }
    {
        let rows = Rows::new(alloc, MOST_ROWS as usize)?;
        Ok(Keyed {
            rows,
            last_delete: 0,
            stamps: 0,
            tick: 0,
        })
    }
}

impl<K: Key, V: Counts> Keyed<K, V> {
    /// Begins anew, without rows, with room for so many.
    pub fn begin(&mut self, capacity: u32)
        requires some { 1 ≤ capacity }
        requires most { capacity ≤ MOST_ROWS }
        ensures nothing { IsOf K.eq V.blank_value V.plus [] self.new }
        ensures none { self.new.rows.rows ≡ [] }
        ensures capacity { self.new.rows.capacity ≡ capacity }
        ensures stamps { self.new.stamps ≡ 0 }
        ensures tick { self.new.tick ≡ 0 }
    {
        self.rows.reset(capacity as usize);
        self.last_delete = 0;
        self.stamps = 0;
        self.tick = 0;
    }

    /// The rows.
    pub fn rows(&self) -> &Rows<K, V>
        ensures value { result.now ≡ self.now.rows }
        ensures room { result.now.room ≡ MOST_ROWS }
    {
        &self.rows
    }

    /// The tick at which the last row gave way to another, 0 before any did.
    pub fn last_delete(&self) -> u32
        ensures { result ≡ self.now.last_delete }
    {
        self.last_delete
    }

    /// Takes a reference to a key, by its stamp, its tick in hundredths of a second, and what it adds: a row is entered where the key has
    /// none, and the one that was referred to least recently gives way where the table is full. Says which of these it was.
    pub fn refer(&mut self, key: K, stamp: u64, tick: u32, gain: &V) -> Touch<K>
        requires stamp { self.old.stamps ≤ stamp }
        requires fits { stamp + 1 < 2 ^ 64 }
        requires tick { self.old.tick ≤ tick }
        ensures means { (mentions : List (Mention K V)) → IsOf K.eq V.blank_value V.plus mentions self.old
            → IsOf K.eq V.blank_value V.plus (refers key stamp tick gain.now ∷ mentions) self.new }
        ensures capacity { self.new.rows.capacity ≡ self.old.rows.capacity }
        ensures stamps { self.new.stamps ≡ stamp + 1 }
        ensures tick { self.new.tick ≡ tick }
        ensures keys { AreAfter K.eq key result (keys_of self.old.rows.rows) (keys_of self.new.rows.rows) }
        ensures few { length self.new.rows.rows ≤ MOST_ROWS }
    {
        let touch = self.rows.touch(key, stamp, tick);
        if let Touch::Evicted(_) = touch {
            self.last_delete = tick;
        }
        self.stamps = stamp + 1;
        self.tick = tick;
        credit(&mut self.rows, &key, gain);
        touch
    }

    /// Adds to the row of a key, where it has one. None is entered, and none counts as referred to.
    pub fn stray(&mut self, key: &K, gain: &V)
        ensures means { (mentions : List (Mention K V)) → IsOf K.eq V.blank_value V.plus mentions self.old
            → IsOf K.eq V.blank_value V.plus (strays key.now gain.now ∷ mentions) self.new }
        ensures capacity { self.new.rows.capacity ≡ self.old.rows.capacity }
        ensures stamps { self.new.stamps ≡ self.old.stamps }
        ensures tick { self.new.tick ≡ self.old.tick }
        ensures keys { keys_of self.new.rows.rows ≡ keys_of self.old.rows.rows }
    {
        credit(&mut self.rows, key, gain);
    }
}

// Adds to the row of a key, where there is one.
fn credit<K: Key, V: Counts>(rows: &mut Rows<K, V>, key: &K, gain: &V)
    ensures { rows.new ≡ record { room = rows.old.room; capacity = rows.old.capacity; rows = credited K.eq V.plus key.now gain.now rows.old.rows } }
{
    if let Some(value) = rows.get_mut(key) {
        value.add(gain);
    }
}
