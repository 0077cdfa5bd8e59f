// The rows of a table, of which at most so many are held.

ghost use Rattle.std.specs.Prelude.{◌≡◌, ◌+◌, ◌<◌, ◌≤◌, [], length, All, IfOk, option_copied, option_map};
ghost use Rattle.std.specs.Prelude.{IfSome, IfNone, Some, None};
ghost use Rattle.std.specs.Borrow.{sem};
ghost use Rattle.rm_evicting.specs.Row.{touched};

use crate::first::{Above, first_row};
use crate::index::{node_of, refer, seek};
use crate::ranks::{nth, rank};
use crate::touch::Touch;
use crate::walk::next_row;
use rm_evicting::{Blank, Key};
use rm_recency::{Node, RecencyList, value_at};
use rm_val::NoMemory;
use std::alloc::{AllocError, Global};
use std::collections::VecDeque;
use std::marker::Model;

/// The rows of a table of bounded size, found by a key: contracts see them as a list in order of entry. Where the table is full, the
/// row whose last reference is oldest gives way to a new one. All memory is reserved when the table is made: one block of nodes, threaded by
/// raw links in order of recency, a ring of links in order of entry, and an index of links by key.
#[derive(Drop)]
pub struct Rows<K: Key, V: Blank> {
    room: usize,
    capacity: usize,
    list: RecencyList<K, V>,
    entered: VecDeque<*mut Node<K, V>>,
    index: Vec<*mut Node<K, V>>,
}

impl<K: Key, V: Blank> Model for Rows<K, V> {
    ghost use Rattle.rm_rows.specs.Table.{Table};
    ghost use Rattle.rm_rows.specs.Index.{IsReserved, rows_in};

    ghost Value = { Table K V };

    ghost view = { λ s. record { room = s.room; capacity = s.capacity; rows = rows_in s.list s.entered.items } };

    ghost invariant = { λ s. IsReserved K.cmp s.list s.entered s.index s.room s.capacity };
}

impl<K: Key, V: Blank> Rows<K, V> {
    ghost use Rattle.rm_rows.specs.TableLending.{lends_value};
    ghost use Rattle.rm_rows.specs.Table.{IsFirstPassing, PassesUpward, IsNextKey, IsNextMark, keys_of, pair_copied, order_of, key_at, entry_of, tick_of, touch_answer, row_of, value_of, AreAfter};

    /// A table without rows, of the capacity for which it reserves memory. NoMemory where there is none.
    pub fn new(alloc: Global, capacity: usize) -> Result<Rows<K, V>, NoMemory>
        requires some { 1 ≤ capacity }
        requires bound { capacity ≤ 4096 }
        ensures { IfOk result (λ t. t ≡ record { room = capacity; capacity = capacity; rows = [] }) }
    {
        Rows::reserve(alloc, capacity).map_err(|_| NoMemory)
    }

    // The same, with the error of the allocator.
    fn reserve(alloc: Global, capacity: usize) -> Result<Rows<K, V>, AllocError>
        requires some { 1 ≤ capacity }
        ensures { IfOk result (λ t. t ≡ record { room = capacity; capacity = capacity; rows = [] }) }
    {
        let list = RecencyList::new(alloc, capacity)?;
        let entered = VecDeque::with_capacity(alloc, capacity)?;
        let index = Vec::with_capacity(alloc, capacity)?;
        Ok(Rows {
            room: capacity,
            capacity,
            list,
            entered,
            index,
        })
    }

    /// Takes a reference to a key, by its stamp, which is above those of all references before, and its tick in hundredths of a second,
    /// which isn't below theirs. Held: the key has a row, whose last reference this becomes. Fresh: it has none, and a blank one is entered
    /// last. Evicted: likewise, but the table is full, and the row whose last reference is oldest goes.
    pub fn touch(&mut self, key: K, stamp: u64, tick: u32) -> Touch<K>
        requires stamp { All (λ row. row.last < stamp) self.old.rows }
        requires tick { All (λ row. row.tick ≤ tick) self.old.rows }
        ensures rows { self.new ≡ record { room = self.old.room; capacity = self.old.capacity; rows = touched K.eq V.blank_value self.old.capacity key stamp tick self.old.rows } }
        ensures answer { result ≡ touch_answer K.eq self.old.capacity key self.old.rows }
        ensures keys { AreAfter K.eq key result (keys_of self.old.rows) (keys_of self.new.rows) }
        ensures few { length self.new.rows ≤ self.new.room }
    {
        refer(
            &mut self.list,
            &mut self.entered,
            &mut self.index,
            self.capacity,
            key,
            stamp,
            tick,
        )
    }

    /// The value of the row of a key. None where it has none.
    pub fn get(&self, key: &K) -> Option<&V>
        ensures { option_copied result ≡ option_map value_of (row_of K.eq key.now self.now.rows) }
    {
        match seek(&self.list, &self.index, key) {
            Some(row) => Some(&row.value),
            None => None,
        }
    }

    /// The same, to be written.
    pub fn get_mut(&mut self, key: &K) -> Option<&mut V>
        ensures* writes_back { sem 𝓛 (lends_value K.row V.row K.Ord.own K.PartialEq K.PartialOrd.own V.Blank self.entry key.now result) }
        ensures value { IfSome result (λ v. option_map value_of (row_of K.eq key.now self.old.rows) ≡ Some v.now) }
        ensures none { IfNone result (row_of K.eq key.now self.old.rows ≡ None) }
    {
        let ptr = node_of(&self.list, &self.index, key);
        value_at(&mut self.list, ptr)
    }

    /// The rank of a key's row by entry, from 1. None where it has no row.
    pub fn order(&self, key: &K) -> Option<usize>
        ensures { result ≡ order_of K.eq key.now self.now.rows }
    {
        rank(&self.list, &self.entered, &self.index, key)
    }

    /// The key whose row has that rank by entry. None where the rank is 0 or above the number of rows.
    pub fn made(&self, rank: usize) -> Option<&K>
        ensures { option_copied result ≡ key_at rank self.now.rows }
    {
        if rank == 0 {
            return None;
        }
        match nth(&self.list, &self.entered, rank - 1) {
            Some(row) => Some(&row.key),
            None => None,
        }
    }

    /// The stamp of the reference by which the row of a key was entered. None where it has none.
    pub fn entry(&self, key: &K) -> Option<u64>
        ensures { result ≡ option_map entry_of (row_of K.eq key.now self.now.rows) }
    {
        match seek(&self.list, &self.index, key) {
            Some(row) => Some(row.entry),
            None => None,
        }
    }

    /// The tick of the last reference to a key. None where it has no row.
    pub fn mark(&self, key: &K) -> Option<u32>
        ensures { result ≡ option_map tick_of (row_of K.eq key.now self.now.rows) }
    {
        match seek(&self.list, &self.index, key) {
            Some(row) => Some(row.tick),
            None => None,
        }
    }

    /// The least key above another, or of all where there is no other. None where there is none.
    pub fn after(&self, key: Option<&K>) -> Option<&K>
        ensures { IsNextKey K.cmp (keys_of self.now.rows) (option_copied key.entry) (option_copied result) }
    {
        match next_row(&self.list, &self.index, 0, key.copied()) {
            Some(row) => Some(&row.key),
            None => None,
        }
    }

    /// The least key above a point. None where there is none.
    pub fn first<A: Above<K>>(&self, point: &A) -> Option<&K>
        requires upward { PassesUpward K.cmp (A.is_above point.now) }
        ensures { IsFirstPassing K.cmp (A.is_above point.now) (keys_of self.now.rows) (option_copied result) }
    {
        match first_row(&self.list, &self.index, point) {
            Some(row) => Some(&row.key),
            None => None,
        }
    }

    /// The least pair of a mark and a key above the given one, where each row stands at each mark up to its tick; from all keys of the
    /// mark on where no key is given (RFC 2021, TimeFilter). None where there is none.
    pub fn mark_after(&self, mark: u32, key: Option<&K>) -> Option<(u32, &K)>
        ensures { IsNextMark K.cmp self.now.rows mark (option_copied key.entry) (pair_copied result) }
    {
        if let Some(row) = next_row(&self.list, &self.index, mark as u64, key.copied()) {
            return Some((mark, &row.key));
        }
        match next_row(&self.list, &self.index, mark as u64 + 1, None) {
            Some(row) => Some((mark + 1, &row.key)),
            None => None,
        }
    }

    /// How many rows there are.
    pub fn len(&self) -> usize
        ensures value { result ≡ length self.now.rows }
        ensures within { result ≤ self.now.room }
    {
        self.index.len()
    }

    /// Takes every row away. The capacity stays.
    pub fn clear(&mut self)
        ensures { self.new ≡ record { room = self.old.room; capacity = self.old.capacity; rows = [] } }
    {
        self.list.clear();
        self.entered.clear();
        self.index.clear();
    }

    /// Takes every row away and sets the capacity, which is at least 1 and at most that for which memory was reserved.
    pub fn reset(&mut self, capacity: usize)
        requires some { 1 ≤ capacity }
        requires within { capacity ≤ self.old.room }
        ensures { self.new ≡ record { room = self.old.room; capacity = capacity; rows = [] } }
    {
        self.list.clear();
        self.entered.clear();
        self.index.clear();
        self.capacity = capacity;
    }
}
