// The rows of rm_rows, each by what is kept of a network row.

ghost use Rattle.std.specs.Prelude.{◌≡◌, ◌<◌, ◌≤◌, [], length, All, IfOk, IfSome};
ghost use Rattle.std.specs.Option.{option_copied, option_map};
ghost use Rattle.rm_evicting.specs.Row.{holds, touched, credited};

use crate::counts::{Counted, LayerCounts};
use crate::slots::{KeptApplication, Slot};
use rm_evicting::Key;
use rm_rows::{Rows, Touch};
use rm_val::NoMemory;
use std::alloc::Global;
use std::marker::Model;

/// Network rows. Contracts see of each value what is kept of a network row.
#[derive(Drop)]
pub(crate) struct KeptRows<K: Key, N: LayerCounts> {
    rows: Rows<K, N::Row>,
}

impl<K: Key, N: LayerCounts> Model for KeptRows<K, N> {
    ghost use Rattle.rm_rows.specs.Table.{Table};
    ghost use Rattle.rm_upper.specs.Kept.{NetworkRow};
    ghost use Rattle.rm_upper.specs.Shown.{seen_table};

    ghost Value = { Table K (NetworkRow N N.Application) };

    ghost view = { λ s. seen_table N.seen s.rows };
}

impl<K: Key, N: LayerCounts> KeptRows<K, N> {
    ghost use Rattle.rm_rows.specs.Table.{AreAfter, IsNextKey, IsNextMark, keys_of, pair_copied, key_at, row_of, tick_of};
    ghost use Rattle.rm_layers.specs.Applications.{AreApart};
    ghost use Rattle.rm_upper.specs.Shown.{blank_row, gained_value, made_in, applications_of, had_row, protocols};
    ghost use Rattle.rm_upper.specs.Cells.{network_in};

    /// No rows, and memory for so many. NoMemory where there is none.
    pub(crate) fn new(alloc: Global, capacity: usize) -> Result<KeptRows<K, N>, NoMemory>
        requires some { 1 ≤ capacity }
        requires bound { capacity ≤ 4096 }
        ensures { IfOk result (λ table. table ≡ record { room = capacity; capacity = capacity; rows = [] }) }
    {
        let rows = Rows::new(alloc, capacity)?;
        Ok(KeptRows { rows })
    }

    /// Takes a reference to a key, and tells what it did: where the key had no row, a blank one is entered, for which the row that was
    /// referred to least recently goes if there is no room.
    pub(crate) fn touch(&mut self, key: K, stamp: u64, tick: u32) -> Touch<K>
        requires stamp { All (λ row. row.last < stamp) self.old.rows }
        requires tick { All (λ row. row.tick ≤ tick) self.old.rows }
        ensures rows { self.new ≡ record { room = self.old.room; capacity = self.old.capacity; rows = touched K.eq (blank_row N.tally.blank) self.old.capacity key stamp tick self.old.rows } }
        ensures held { had_row result ≡ holds K.eq key self.old.rows }
        ensures keys { AreAfter K.eq key result (keys_of self.old.rows) (keys_of self.new.rows) }
        ensures few { length self.new.rows ≤ self.new.room }
    {
        self.rows.touch(key, stamp, tick)
    }

    /// A contribution comes to the row of a key, where there is one; no protocol has two slots. Tells how many application rows it makes.
    pub(crate) fn gain(
        &mut self,
        key: &K,
        slots: &[Option<Slot>; 32],
        path: &[u32],
        stamp: u64,
        tick: u32,
        gain: &N,
    ) -> u32
        requires apart { AreApart (protocols slots.now) }
        ensures rows { self.new ≡ record { room = self.old.room; capacity = self.old.capacity; rows = credited K.eq (gained_value N.tally slots.now path.now stamp tick) key.now gain.now self.old.rows } }
        ensures made { result ≡ made_in K.eq slots.now path.now key.now self.old.rows }
        ensures few { result ≤ 32 }
    {
        match self.rows.get_mut(key) {
            Some(row) => N::gain(row, slots, path, stamp, tick, gain),
            None => 0,
        }
    }

    /// What the row of a key shows. None where it has none.
    pub(crate) fn network(&self, key: &K) -> Option<Counted<N>>
        ensures { result ≡ network_in (row_of K.eq key.now self.now.rows) }
    {
        let row = self.rows.get(key)?;
        let tick = self.rows.mark(key)?;
        N::network(row, tick)
    }

    /// The application rows of a key, in slots. None where it has no row.
    pub(crate) fn applications(&self, key: &K) -> Option<&[Option<KeptApplication<N::Application>>]>
        ensures value { option_copied result ≡ option_map applications_of (row_of K.eq key.now self.now.rows) }
        ensures each { IfSome result (λ applications. length applications.now ≡ 32) }
    {
        match self.rows.get(key) {
            Some(row) => Some(N::applications(row)),
            None => None,
        }
    }

    /// The tick of the last contribution to a key. None where it has no row.
    pub(crate) fn mark(&self, key: &K) -> Option<u32>
        ensures { result ≡ option_map tick_of (row_of K.eq key.now self.now.rows) }
    {
        self.rows.mark(key)
    }

    /// The least key above another, or of all where there is no other. None where there is none.
    pub(crate) fn after(&self, key: Option<&K>) -> Option<&K>
        ensures { IsNextKey K.cmp (keys_of self.now.rows) (option_copied key.entry) (option_copied result) }
    {
        self.rows.after(key)
    }

    /// The least pair of a mark and a key above the given one, where each row stands at each mark up to its tick. None where there is none.
    pub(crate) fn mark_after(&self, mark: u32, key: Option<&K>) -> Option<(u32, &K)>
        ensures { IsNextMark K.cmp self.now.rows mark (option_copied key.entry) (pair_copied result) }
    {
        self.rows.mark_after(mark, key)
    }

    /// The key whose row was entered at that rank, from 1. None where the rank is 0 or above the number of rows.
    pub(crate) fn made(&self, rank: usize) -> Option<&K>
        ensures { option_copied result ≡ key_at rank self.now.rows }
    {
        self.rows.made(rank)
    }

    /// How many rows there are.
    pub(crate) fn len(&self) -> usize
        ensures value { result ≡ length self.now.rows }
        ensures within { result ≤ self.now.room }
    {
        self.rows.len()
    }

    /// Takes every row away. The capacity stays.
    pub(crate) fn clear(&mut self)
        ensures { self.new ≡ record { room = self.old.room; capacity = self.old.capacity; rows = [] } }
    {
        self.rows.clear();
    }

    /// Takes every row away and sets the capacity, which is at least 1 and at most that for which memory was reserved.
    pub(crate) fn reset(&mut self, capacity: usize)
        requires some { 1 ≤ capacity }
        requires within { capacity ≤ self.old.room }
        ensures { self.new ≡ record { room = self.old.room; capacity = capacity; rows = [] } }
    {
        self.rows.reset(capacity);
    }
}
