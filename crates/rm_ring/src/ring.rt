// A ring of packets.
ghost use Rattle.std.specs.Prelude.{◌≡◌, ◌+◌, ◌/◌, ◌<◌, ◌≤◌, ◌^◌, [], ◌∷◌, ◌++◌, length, drop, slice_get, option_map, nat_le, IfOk};
ghost use borrow.Rule.Slice.PartMut.{put_mid};
ghost use Rattle.rm_ring.specs.Kept.{Kept, cost_of, stored};

use crate::packet::Packet;
use crate::place::Place;
use crate::runs::Runs;
use circular_buffer::HeapCircularBuffer;
use std::alloc::{AllocError, Global};
use std::marker::Model;

/// What a packet costs beside its octets.
pub const PLACE_COST: usize = 32;

/// Packets in a ring of octets, the oldest first. Each stands in one piece: one that doesn't fit before the ring's end goes to its
/// front. No octet is moved once it is stored.
///
/// A packet costs its octets and `PLACE_COST` more. All memory is reserved when the ring is made.
#[derive(Drop)]
pub struct Ring<T> {
    octets: Vec<u8>,
    places: HeapCircularBuffer<Place<T>>,
    runs: Runs,
    // What packets may cost together, how much of that is left, and how many octets a packet may have.
    granted: usize,
    left: usize,
    slice: usize,
}

impl<T> Model for Ring<T> {
    ghost use Rattle.rm_ring.specs.Kept.{Kept};
    ghost use Rattle.rm_ring.specs.Laid.{IsLaid, packets_in};

    ghost Value = { Kept T };

    ghost view = { λ s. packets_in s.octets s.places s.granted s.slice };

    ghost invariant = { λ s. IsLaid s.octets s.places s.runs s.granted s.left s.slice };
}

impl<T: Copy> Ring<T> {
    /// An empty ring with storage for packets that cost so many octets together, of which each has no more than a slice. AllocError
    /// where there is no memory.
    pub fn new(alloc: Global, granted: usize, slice: usize) -> Result<Ring<T>, AllocError>
        requires one { slice + PLACE_COST ≤ granted }
        requires near { granted + slice < 2 ^ 63 }
        ensures { IfOk result (λ ring. ring ≡ record { storage = granted + slice; places = granted / PLACE_COST; granted = granted; slice = slice; packets = [] }) }
    {
        let octets = vec![in alloc; 0u8; granted + slice]?;
        let places = HeapCircularBuffer::with_capacity(alloc, granted / PLACE_COST)?;
        Ok(Ring {
            octets,
            places,
            runs: Runs::new(),
            granted,
            left: granted,
            slice,
        })
    }

    /// Begins anew, with no packets: those to come may cost so many octets together, and each has no more than a slice.
    pub fn begin(&mut self, granted: usize, slice: usize)
        requires one { slice + PLACE_COST ≤ granted }
        requires storage { granted + slice ≤ self.old.storage }
        requires places { granted / PLACE_COST ≤ self.old.places }
        ensures { self.new ≡ record self.old { granted = granted; slice = slice; packets = [] } }
    {
        self.places.clear();
        self.runs = Runs::new();
        self.granted = granted;
        self.left = granted;
        self.slice = slice;
    }

    /// How many packets are kept.
    pub fn len(&self) -> usize
        ensures { result ≡ length self.now.packets }
    {
        self.places.len()
    }

    /// Whether there is room for a packet of so many octets beside those that are kept.
    pub fn has_room(&self, size: usize) -> bool
        requires { size ≤ self.now.slice }
        ensures answer { result ≡ nat_le (cost_of self.now.packets + (size + PLACE_COST)) self.now.granted }
        ensures within { cost_of self.now.packets ≤ self.now.granted }
        ensures one { self.now.slice + PLACE_COST ≤ self.now.granted }
    {
        let left = self.left;
        size + PLACE_COST <= left
    }

    /// The packet at a place, from 0 for the oldest; None behind the last.
    pub fn get(&self, at: usize) -> Option<Packet<'_, T>>
        ensures { option_map (λ packet. stored packet.info packet.octets.now) result ≡ slice_get self.now.packets at }
    {
        let place = self.places.nth_front(at)?;
        Some(Packet {
            info: place.info,
            octets: &self.octets[place.start..place.start + place.size],
        })
    }

    /// Keeps a packet behind the others, for which there is room.
    pub fn push(&mut self, info: T, octets: &[u8])
        requires slice { length octets.now ≤ self.old.slice }
        requires room { cost_of self.old.packets + (length octets.now + PLACE_COST) ≤ self.old.granted }
        ensures { self.new ≡ record self.old { packets = self.old.packets ++ stored info octets.now ∷ [] } }
    {
        let size = octets.len();
        let start = self.runs.take(self.places.len(), self.octets.len(), size);
        write(&mut self.octets, start, octets);
        self.places.push_back(Place { info, start, size });
        self.left -= size + PLACE_COST;
    }

    /// Drops the oldest packet; nothing where there is none.
    pub fn drop_oldest(&mut self)
        ensures { self.new ≡ record self.old { packets = drop 1 self.old.packets } }
    {
        let count = self.places.len();
        let Some(oldest) = self.places.pop_front() else {
            return;
        };
        self.runs.give_back(count, oldest.size);
        self.left += oldest.size + PLACE_COST;
    }
}

// Writes a packet's octets from a place on.
fn write(into: &mut [u8], start: usize, octets: &[u8])
    requires { start + length octets.now ≤ length into.old }
    ensures { into.new ≡ put_mid start (length octets.now) into.old octets.now }
{
    into[start..start + octets.len()].copy_from_slice(octets);
}
