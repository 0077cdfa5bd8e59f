//! Nodes of rows in one reserved block, threaded by raw links in order of recency.
#![tactic(auto)]

ghost use Rattle.std.specs.Prelude.{◌≡◌, ◌<◌, ◌≤◌, IfOk, IfSome, IfNone, List, [], ◌∷◌, ◌++◌, Some, None, vec_len, vec_capacity, option_map, slice_index_or};
ghost use Rattle.std.specs.Borrow.{sem};
ghost use Rattle.rm_evicting.specs.declared.Row.{Row as RowOf};
ghost use Rattle.rm_evicting.specs.Row.{blank_row};
ghost use Rattle.rm_recency.specs.Lending.{lends_value_at};
ghost use denote.RawPtr.{Ptr};
ghost use Rattle.rm_recency.specs.Threads.{IsAt, IsAtSome, NextSet, PrevSet, next_of, prev_of, Threaded, SameNodes, IsIn, IsList, IsNone, Added, RowSet, row_at, value_by, place, IsEmpty};

use rm_block::{Link, Stride, link_to, node, node_at_mut, node_mut};
use rm_evicting::{Blank, Row};
use std::alloc::{AllocError, Global};

/// The neighbours of a node, or of the list's end: what comes before the end is the last node, and what comes after it the first.
#[derive(Drop)]
pub struct Links<K, V> {
    pub prev: Option<*mut Node<K, V>>,
    pub next: Option<*mut Node<K, V>>,
}

/// A row with its neighbours.
#[derive(Drop)]
pub struct Node<K, V> {
    pub links: Links<K, V>,
    pub row: Row<K, V>,
}

/// The block of nodes, and the end of the list in which they are threaded.
#[derive(Drop)]
pub struct RecencyList<K, V> {
    pub nodes: Vec<Node<K, V>>,
    pub ends: Links<K, V>,
    pub stride: Stride<Node<K, V>>,
}

impl<K, V> RecencyList<K, V> {
    ghost use Rattle.rm_recency.specs.Lending.{lends_value, lends_node};

    /// A block with room for so many nodes, and none in it.
    pub fn new(alloc: Global, capacity: usize) -> Result<RecencyList<K, V>, AllocError>
        ensures { IfOk result (λ t. IsEmpty t × (capacity ≤ vec_capacity t.nodes)) }
    {
        let nodes = Vec::with_capacity(alloc, capacity)?;
        Ok(RecencyList {
            nodes,
            ends: Links {
                prev: None,
                next: None,
            },
            stride: Stride::new(),
        })
    }

    /// Takes every node away. Its memory stays.
    pub fn clear(&mut self)
    where
        K: Drop,
        V: Drop,
        ensures empty { IsEmpty self.new }
        ensures capacity { vec_capacity self.new.nodes ≡ vec_capacity self.old.nodes }
    {
        self.nodes.clear();
        self.ends = Links {
            prev: None,
            next: None,
        };
    }

    fn set_next(&mut self, at: Option<*mut Node<K, V>>, to: Option<*mut Node<K, V>>)
        requires { IsAtSome self.old at }
        ensures { NextSet self.old self.new at to }
    {
        match at {
            None => self.ends.next = to,
            Some(ptr) => {
                node_mut(&mut self.nodes, &self.stride, Link { ptr })
                    .links
                    .next = to;
            }
        }
    }

    fn set_prev(&mut self, at: Option<*mut Node<K, V>>, to: Option<*mut Node<K, V>>)
        requires { IsAtSome self.old at }
        ensures { PrevSet self.old self.new at to }
    {
        match at {
            None => self.ends.prev = to,
            Some(ptr) => {
                node_mut(&mut self.nodes, &self.stride, Link { ptr })
                    .links
                    .prev = to;
            }
        }
    }

    // The neighbours of a node.
    fn links(&self, ptr: *mut Node<K, V>) -> Links<K, V>
        requires { IsAt self.now ptr }
        ensures next { next_of self.now (Some ptr) ≡ Some result.next }
        ensures prev { prev_of self.now (Some ptr) ≡ Some result.prev }
    {
        let node = node(&self.nodes, &self.stride, Link { ptr });
        Links {
            prev: node.links.prev,
            next: node.links.next,
        }
    }

    /// The node that was referred to last.
    pub fn newest(&self) -> Option<*mut Node<K, V>>
        ensures { next_of self.now None ≡ Some result }
    {
        self.ends.next
    }

    // The node that was referred to least recently.
    fn oldest(&self) -> Option<*mut Node<K, V>>
        ensures { prev_of self.now None ≡ Some result }
    {
        self.ends.prev
    }

    /// Takes a node out of the list.
    pub fn unlink(&mut self, ptr: *mut Node<K, V>)
        requires { IsIn self.old ptr }
        ensures list { (xs : List Ptr) (ys : List Ptr) → Threaded self.old (xs ++ ptr ∷ ys) → Threaded self.new (xs ++ ys) }
        ensures nodes { SameNodes self.old self.new }
    {
        let links = self.links(ptr);
        self.set_next(links.prev, links.next);
        self.set_prev(links.next, links.prev);
    }

    /// Puts a node first.
    pub fn link_front(&mut self, ptr: *mut Node<K, V>)
        requires { IsAt self.old ptr × IsList self.old }
        ensures list { (ps : List Ptr) → Threaded self.old ps → IsNone self.old ptr ps → Threaded self.new (ptr ∷ ps) }
        ensures nodes { SameNodes self.old self.new }
    {
        let front = self.newest();
        self.set_next(Some(ptr), front);
        self.set_next(None, Some(ptr));
        self.set_prev(Some(ptr), None);
        self.set_prev(front, Some(ptr));
    }

    /// Takes the node out of the list that was referred to least recently.
    pub fn take_oldest(&mut self) -> Option<*mut Node<K, V>>
        requires { IsList self.old }
        ensures some { (xs : List Ptr) (p : Ptr) → Threaded self.old (xs ++ p ∷ []) → (result ≡ Some p) × Threaded self.new xs }
        ensures none { Threaded self.old [] → result ≡ None }
        ensures nodes { SameNodes self.old self.new }
    {
        match self.oldest() {
            None => None,
            Some(ptr) => {
                self.unlink(ptr);
                Some(ptr)
            }
        }
    }

    /// Adds a row, for which there is room, in a node that isn't in the list.
    pub fn add(&mut self, row: Row<K, V>) -> *mut Node<K, V>
        requires { vec_len self.old.nodes < vec_capacity self.old.nodes }
        ensures { Added self.old self.new result row }
    {
        let place = self.nodes.len();
        self.nodes.push_reserved(Node {
            links: Links {
                prev: None,
                next: None,
            },
            row,
        });
        link_to(&self.nodes, &self.stride, place).ptr
    }

    /// The row at a link.
    pub fn row(&self, ptr: *mut Node<K, V>) -> &Row<K, V>
        requires { IsAt self.now ptr }
        ensures { row_at self.now ptr ≡ Some result.now }
    {
        &node(&self.nodes, &self.stride, Link { ptr }).row
    }

    /// The row at a link gets the stamp and the tick of a reference, and keeps the rest.
    pub fn renew(&mut self, ptr: *mut Node<K, V>, stamp: u64, tick: u32)
        requires { IsAt self.old ptr }
        ensures { (row : RowOf K V) × (row_at self.old ptr ≡ Some row) × RowSet self.old self.new ptr (record row { last = stamp; tick = tick }) }
    {
        let node = node_mut(&mut self.nodes, &self.stride, Link { ptr });
        node.row.last = stamp;
        node.row.tick = tick;
    }

    /// The row at a link becomes a blank one of another key, entered by a reference of this stamp and this tick. Its value is emptied where
    /// it lies.
    pub fn begin(&mut self, ptr: *mut Node<K, V>, key: K, stamp: u64, tick: u32)
    where
        K: Copy,
        V: Blank,
        requires { IsAt self.old ptr }
        ensures { RowSet self.old self.new ptr (blank_row V.blank_value key stamp tick) }
    {
        let node = node_mut(&mut self.nodes, &self.stride, Link { ptr });
        node.row.key = key;
        node.row.value.empty();
        node.row.entry = stamp;
        node.row.last = stamp;
        node.row.tick = tick;
    }

    // The node at a link, to be written.
    fn at_mut(&mut self, ptr: *mut Node<K, V>) -> &mut Node<K, V>
        requires { IsAt self.old ptr }
        ensures* writes_back { sem 𝓛 (lends_node K.row V.row self.entry ptr result) }
        ensures value { result.now ≡ slice_index_or self.old.nodes.items (place self.old ptr) result.now }
    {
        self.stride.known();
        node_at_mut(&mut self.nodes, Link { ptr })
    }

    /// The value of the row at a link, to be written.
    pub fn value_mut(&mut self, ptr: *mut Node<K, V>) -> &mut V
        requires { IsAt self.old ptr }
        ensures* writes_back { sem 𝓛 (lends_value K.row V.row self.entry ptr result) }
        ensures value { option_map (λ row. row.value) (row_at self.old ptr) ≡ Some result.now }
    {
        let node = self.at_mut(ptr);
        let row = &mut node.row;
        &mut row.value
    }
}

/// The value of the row at a link, if there is a link, to be written.
pub fn value_at<K, V>(list: &mut RecencyList<K, V>, ptr: Option<*mut Node<K, V>>) -> Option<&mut V>
    requires { IsAtSome list.old ptr }
    ensures* writes_back { sem 𝓛 (lends_value_at K.row V.row list.entry ptr result) }
    ensures value { IfSome result (λ v. value_by list.old ptr ≡ Some v.now) }
    ensures none { IfNone result (ptr ≡ None) }
{
    match ptr {
        None => None,
        Some(ptr) => Some(list.value_mut(ptr)),
    }
}
