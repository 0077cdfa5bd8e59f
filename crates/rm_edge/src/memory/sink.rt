ghost use Rattle.std.specs.Prelude.{None, Some, IsOk, is_err, if◌then◌else◌, ◌↔◌, ◌≡◌, ◌+◌, ◌≤◌, [], ◌∷◌, ◌++◌, OnOk, OnErr, length, take, min};
ghost use Rattle.rm_edge.specs.Outside.{HasCause, one_more};
ghost use Rattle.rm_edge.specs.MemSink.{keep_at, next_keep, front_kept, capacity};

use crate::outside::{Failed, Sink};
use rm_val::NoMemory;
use std::alloc::Global;
use std::marker::Model;

// A put that is to fail, by its number from 1, and how many octets it is to add.
#[derive(Clone, Copy)]
pub struct PlannedFault {
    pub call: u64,
    pub keep: usize,
}

/// A sink in memory. It tells all its octets, and fails at the puts that were planned, where its
/// room is too small, and nowhere else. No put asks for memory.
#[derive(Drop)]
pub struct MemSink {
    bytes: Vec<u8>,
    room: usize,
    calls: u64,
    planned: Vec<PlannedFault>,
    faults: u64,
}

impl Model for MemSink {
    ghost use Rattle.std.specs.Prelude.{◌+◌, ◌≤◌, vec_len, vec_capacity};
    ghost use Rattle.rm_edge.specs.MemSink.{SinkState};

    ghost Value = { SinkState };

    ghost view = { λ s. record { bytes = s.bytes.items; room = s.room; calls = s.calls; planned = s.planned.items; faults = s.faults } };

    ghost invariant = { λ s. vec_len s.bytes + s.room ≤ vec_capacity s.bytes };
}

impl MemSink {
    /// A sink with no octet and no room, that has had no put and no fault.
    pub fn new(alloc: Global) -> MemSink
        ensures { result ≡ record { bytes = []; room = 0; calls = 0; planned = []; faults = 0 } }
    {
        MemSink {
            bytes: Vec::new(alloc),
            room: 0,
            calls: 0,
            planned: Vec::new(alloc),
            faults: 0,
        }
    }

    /// Makes room for so many more octets. Every octet put uses one of it up. After NoMemory the
    /// sink is as before.
    pub fn reserve(&mut self, octets: usize) -> Result<(), NoMemory>
        ensures ok { OnOk result (self.new ≡ record self.old { room = self.old.room + octets }) }
        ensures err { OnErr result (self.new ≡ self.old) }
    {
        let room = self.room.checked_add(octets).ok_or(NoMemory)?;
        self.bytes.reserve(room).map_err(|_| NoMemory)?;
        self.room = room;
        Ok(())
    }

    /// Plans a fault of the put with that number, the first put since the sink was made being 1.
    /// That put adds a front of its piece: `keep` octets, or less where the piece or the room is
    /// smaller. Of two plans for one number the first counts. After NoMemory the sink is as before.
    pub fn fail(&mut self, call: u64, keep: usize) -> Result<(), NoMemory>
        ensures ok { OnOk result (self.new ≡ record self.old {
          planned = self.old.planned ++ record { call = call; keep = keep } ∷ [];
        }) }
        ensures err { OnErr result (self.new ≡ self.old) }
    {
        self.planned
            .push(PlannedFault { call, keep })
            .map_err(|_| NoMemory)
    }

    /// The octets put so far.
    pub fn bytes(&self) -> &[u8]
        ensures { result.now ≡ self.now.bytes }
    {
        &self.bytes
    }

    // Adds the first `most` octets of the piece, or as many as it has and as there is room for.
    fn add(&mut self, piece: &[u8], most: usize)
        ensures bytes { self.new.bytes ≡ self.old.bytes ++ take (min most self.old.room) piece.now }
        ensures room { capacity self.new ≡ capacity self.old }
        ensures rest { self.new ≡ record self.old { bytes = self.new.bytes; room = self.new.room } }
    {
        let added = piece.len().min(most).min(self.room);
        // This asks for no memory, since the room was reserved.
        let _ = self.bytes.extend_from_slice(&piece[..added]);
        self.room -= added;
    }
}

// How many octets the put with that number is to add, if it is to fail.
fn keep_of(planned: &[PlannedFault], call: u64) -> Option<usize>
    ensures { result ≡ keep_at planned.now call }
{
    planned
        .iter()
        .find(|fault| fault.call == call)
        .map(|fault| fault.keep)
}

impl Sink for MemSink {
    ghost content = { λ s. Some s.bytes };

    ghost faults = { λ s. s.faults };

    fn put(&mut self, piece: &[u8]) -> Result<(), Failed>
        ensures cause { HasCause self.old.faults self.new.faults result }

        // It fails at the planned calls and where the room is too small, and nowhere else.
        ensures exact { IsOk result
            ↔ ((next_keep self.old ≡ None) × (length piece.now ≤ self.old.room)) }

        // A put that fails adds what its plan keeps, or else the piece, as far as there is room.
        ensures ok { OnOk result (self.new.bytes ≡ self.old.bytes ++ piece.now) }
        ensures err { OnErr result (self.new.bytes
            ≡ self.old.bytes ++ front_kept self.old piece.now) }

        // Each octet added lowers the room by one.
        ensures room { capacity self.new ≡ capacity self.old }

        ensures counted { self.new.faults
            ≡ (if is_err result then one_more self.old.faults else self.old.faults) }
        ensures calls { self.new.calls ≡ one_more self.old.calls }
        ensures planned { self.new.planned ≡ self.old.planned }
    {
        self.calls = self.calls.saturating_add(1);
        let keep = keep_of(&self.planned, self.calls);
        let fits = piece.len() <= self.room;
        self.add(piece, keep.unwrap_or(piece.len()));
        if keep.is_none() && fits {
            return Ok(());
        }
        self.faults = self.faults.saturating_add(1);
        Err(Failed)
    }
}
