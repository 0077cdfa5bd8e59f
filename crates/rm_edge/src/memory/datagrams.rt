// The datagrams of a link in memory.
ghost use Rattle.std.specs.Prelude.{◌≡◌, ◌↔◌, ◌<◌, IsNone, IfOk, IfSome, length, take, min};

use crate::outside::Peer;
use arrayvec::ArrayVec;
use rm_val::NoMemory;
use std::alloc::Global;
use std::marker::Model;

// A datagram to receive.
#[derive(Drop)]
pub struct Arriving {
    peer: Peer,
    bytes: Vec<u8>,
}

impl Model for Arriving {
    ghost use Rattle.rm_edge.specs.Link.{Datagram};

    ghost Value = { Datagram };

    ghost view = { λ d. record { peer = d.peer; bytes = d.bytes.items } };
}

impl Arriving {
    pub fn new(alloc: Global, peer: Peer, bytes: &[u8]) -> Result<Arriving, NoMemory>
        ensures { IfOk result (λ datagram. datagram ≡ record { peer = peer; bytes = bytes.now }) }
    {
        Ok(Arriving {
            peer,
            bytes: Vec::from_slice(alloc, bytes).map_err(|_| NoMemory)?,
        })
    }

    // Copies the octets that fit, and answers the sender and how many they are.
    pub fn copy_into(&self, into: &mut [u8]) -> (Peer, usize)
        ensures peer { result.0 ≡ self.now.peer }
        ensures count { result.1 ≡ min (length self.now.bytes) (length into.old) }
        ensures size { length into.new ≡ length into.old }
        ensures octets { take result.1 into.new ≡ take result.1 self.now.bytes }
    {
        let count = self.bytes.len().min(into.len());
        into[..count].copy_from_slice(&self.bytes[..count]);
        (self.peer, count)
    }
}

// A datagram that was sent, of at most 1,472 octets.
#[derive(Drop)]
pub struct Departed {
    peer: Peer,
    bytes: ArrayVec<u8, 1472>,
}

impl Model for Departed {
    ghost use Rattle.rm_edge.specs.Link.{Datagram};

    ghost Value = { Datagram };

    ghost view = { λ d. record { peer = d.peer; bytes = d.bytes.items } };
}

impl Departed {
    // None exactly where there are more octets than that.
    pub fn new(peer: Peer, bytes: &[u8]) -> Option<Departed>
        ensures datagram { IfSome result (λ datagram. datagram ≡ record { peer = peer; bytes = bytes.now }) }
        ensures exact { IsNone result ↔ (1472 < length bytes.now) }
    {
        let mut copy = ArrayVec::new();
        copy.try_extend_from_slice(bytes).ok()?;
        Some(Departed { peer, bytes: copy })
    }

    pub fn peer(&self) -> Peer
        ensures { result ≡ self.now.peer }
    {
        self.peer
    }

    pub fn bytes(&self) -> &[u8]
        ensures { result.now ≡ self.now.bytes }
    {
        &self.bytes
    }
}
