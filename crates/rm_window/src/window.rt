ghost use Rattle.std.specs.Prelude.{◌≡◌, ◌≤◌, ◌<◌, ◌+◌, ◌-◌, ◌^◌, ℕ, List, [], length, take, drop, vec_len, IfOk, IfErr, IsErr};
ghost use Rattle.rm_edge.specs.Outside.{File, Absent, HasCause};
ghost use Rattle.rm_edge.specs.Shelves.{KeepsShelf};
ghost use Rattle.rm_window.specs.Filling.{IsFront, Holds};

use crate::filling::fill;
use rm_edge::{Failed, Shelf};
use std::alloc::{AllocError, Global};

/// Octets of a file that were read: some that were passed, and behind them those that are next.
///
/// It reserves its room when it is made, and nothing later.
#[derive(Drop)]
pub struct Window {
    buffer: Vec<u8>,
    // Where the octets that are next begin, and where they end.
    from: usize,
    until: usize,
    ghost order: { from ≤ until },
    ghost within: { until ≤ vec_len buffer },
}

impl Window {
    ghost use Rattle.rm_window.specs.Window.{octets_of, passed_of, kept_of, room_of};

    /// A window with no octets, and room for so many.
    pub fn new(alloc: Global, room: usize) -> Result<Window, AllocError>
        ensures octets { IfOk result (λ window. octets_of window ≡ []) }
        ensures room { IfOk result (λ window. room_of window ≡ room) }
    {
        let buffer = vec![in alloc; 0u8; room]?;
        Ok(Window {
            buffer,
            from: 0,
            until: 0,
        })
    }

    /// How many octets are next.
    pub fn len(&self) -> usize
        ensures { result ≡ length (octets_of self.now) }
    {
        self.until - self.from
    }

    /// The octets that are next.
    pub fn octets(&self) -> &[u8]
        ensures { result.now ≡ octets_of self.now }
    {
        &self.buffer[self.from..self.until]
    }

    /// So many of the octets that were passed last.
    pub fn passed(&self, count: usize) -> &[u8]
        requires { count ≤ kept_of self.now }
        ensures { result.now ≡ passed_of self.now count }
    {
        &self.buffer[self.from - count..self.from]
    }

    /// Passes octets.
    pub fn pass(&mut self, count: usize)
        requires { count ≤ length (octets_of self.old) }
        ensures octets { octets_of self.new ≡ drop count (octets_of self.old) }
        ensures kept { count ≤ kept_of self.new }
        ensures room { room_of self.new ≡ room_of self.old }
        ensures passed { (k : ℕ) → k ≤ count → passed_of self.new k ≡ take k (drop (count - k) (octets_of self.old)) }
    {
        self.from += count;
    }

    /// Lets go of the octets behind the first ones.
    pub fn truncate(&mut self, count: usize)
        requires { count ≤ length (octets_of self.old) }
        ensures octets { octets_of self.new ≡ take count (octets_of self.old) }
        ensures room { room_of self.new ≡ room_of self.old }
    {
        self.until = self.from + count;
    }

    // Moves the octets that are next to the front.
    fn turn(&mut self)
        ensures octets { octets_of self.new ≡ octets_of self.old }
        ensures from { self.new.from ≡ 0 }
        ensures room { room_of self.new ≡ room_of self.old }
    {
        self.buffer.copy_within(self.from..self.until, 0);
        self.until -= self.from;
        self.from = 0;
    }

    /// Sees that so many octets are next, or all that the file has left, and answers how many are next.
    ///
    /// The octets that are next stand from place `at` of the file on, and stay so. Where fewer are next than are needed, they
    /// move to the front, and reads fill the room behind them until there is none or the file ends. Failed comes only
    /// where a read failed. A name without a file always fails where fewer are next than are needed. Where enough are next, nothing is
    /// read.
    pub fn hold<S: Shelf>(
        &mut self,
        shelf: &mut S,
        name: &str,
        at: u64,
        need: usize,
    ) -> Result<usize, Failed>
        requires near { at + room_of self.old < 2 ^ 64 }
        requires fits { need ≤ room_of self.old }
        ensures shelf { KeepsShelf S.held S.faults shelf.old shelf.new (λ each. each ≡ name.now) (IsErr result) }
        ensures cause { HasCause (S.faults shelf.old name.now) (S.faults shelf.new name.now) result }
        ensures room { room_of self.new ≡ room_of self.old }
        ensures keeps { IsFront (octets_of self.old) (octets_of self.new) }
        ensures count { IfOk result (λ count. count ≡ length (octets_of self.new)) }
        ensures holds { (bytes : List ℕ) → S.held shelf.old name.now ≡ File bytes → IsFront (octets_of self.old) (drop at bytes)
            → IfOk result (λ count. Holds bytes at need (octets_of self.new)) }
        ensures absent { S.held shelf.old name.now ≡ Absent → length (octets_of self.old) < need → IsErr result }
        ensures few { IfErr result (λ _. length (octets_of self.old) < need) }
        ensures same { need ≤ length (octets_of self.old) → octets_of self.new ≡ octets_of self.old }
        ensures unread { need ≤ length (octets_of self.old) → shelf.new ≡ shelf.old }
    {
        let have = self.len();
        if have >= need {
            return Ok(have);
        }
        self.turn();
        let count = fill(shelf, name, at + have as u64, &mut self.buffer[have..])?;
        self.until = have + count;
        Ok(self.until)
    }
}
