// The packets that a buffer keeps.
ghost use Rattle.std.specs.Prelude.{◌≡◌, ℕ, ◌+◌, ◌-◌, ◌/◌, min, IfOk, ◌<◌, ◌≤◌, Bool, List, [], ◌∷◌, length, slice_get, option_map};
ghost use Rattle.rm_model.specs.Counting.{Counting};
ghost use Rattle.rm_model.specs.Journal.{Frame};
ghost use Rattle.rm_group.specs.Passing.{IsOf};
ghost use Rattle.rm_acts.specs.Buffers.{all_or};
ghost use Rattle.rm_ring.specs.Kept.{stored};
ghost use Rattle.rm_capture.specs.Keeping.{ring_after, lost_after};
ghost use Rattle.rm_group.specs.declared.bounds.TheConstants.{MOST_FRAMES};

use crate::buffer_row::{MOST_GRANTED, MOST_SLICE};
use crate::full_action::FullAction;
use rm_group::{MOST_FRAMES, Passing};
use rm_ring::{Packet, Ring};
use std::alloc::{AllocError, Global};

/// The longest time that captureBufferPacketTime shows, in milliseconds.
const MOST_TIME: u32 = 2_147_483_647;

/// What is known of a packet that is kept (RFC 1757, captureBufferEntry).
#[derive(Clone, Copy, Debug, PartialEq, Eq)]
pub struct PacketInfo {
    /// captureBufferIndex: its number among those that the buffer accepted, from 1.
    pub number: u32,
    /// captureBufferPacketID: its number in the capture of its interface.
    pub id: u32,
    /// captureBufferPacketLength: its octets on the wire, the check sequence included.
    pub length: u32,
    /// Its moment, in milliseconds.
    pub moment: u32,
    /// captureBufferPacketStatus
    pub status: u8,
}

/// The packets that a buffer keeps of those that it accepted since it became valid: the first ones, or the last ones, whose cost is at
/// most what is granted.
#[derive(Drop)]
pub struct Captured {
    /// The packets that are kept.
    pub ring: Ring<PacketInfo>,
    /// What the buffer does where it is full.
    pub action: FullAction,
    /// How many octets of a packet are stored at most.
    pub slice: usize,
    /// How many packets were accepted.
    pub accepted: u32,
    /// Whether one of them isn't kept.
    pub lost: bool,
    ghost sliced: { slice ≡ ring.slice },
    ghost fewer: { length ring.packets ≤ accepted },
    ghost few: { accepted ≤ MOST_FRAMES },
}

impl PacketInfo {
    /// captureBufferPacketTime: how long after the moment at which the buffer became valid the packet came, both in milliseconds. A
    /// longer time than can be shown is shown as the longest.
    pub fn time_since(&self, start: u32) -> u32
        ensures { result ≡ min (self.now.moment - start) MOST_TIME }
    {
        self.moment.saturating_sub(start).min(MOST_TIME)
    }
}

impl Captured {
    ghost use Rattle.rm_capture.specs.Captured.{HasKept, wraps};
    ghost use Rattle.rm_capture.specs.Kept.{oldest_in, packet_with};

    /// No packets, with storage for as many as any buffer may keep. AllocError where there is no memory.
    pub fn new(alloc: Global) -> Result<Captured, AllocError>
        ensures storage { IfOk result (λ captured. captured.ring.storage ≡ MOST_GRANTED + MOST_SLICE) }
        ensures places { IfOk result (λ captured. captured.ring.places ≡ MOST_GRANTED / 32) }
        ensures packets { IfOk result (λ captured. captured.ring.packets ≡ []) }
        ensures accepted { IfOk result (λ captured. captured.accepted ≡ 0) }
    {
        let ring = Ring::new(alloc, MOST_GRANTED as usize, MOST_SLICE as usize)?;
        Ok(Captured {
            ring,
            action: FullAction::Lock,
            slice: MOST_SLICE as usize,
            accepted: 0,
            lost: false,
        })
    }

    /// Begins anew, with no packets, for packets of which so many octets are stored at most, and which cost no more than is granted.
    pub fn begin(&mut self, action: FullAction, granted: usize, slice: usize)
        requires one { slice + 32 ≤ granted }
        requires storage { granted + slice ≤ self.old.ring.storage }
        requires places { granted / 32 ≤ self.old.ring.places }
        ensures kept { (settings : Counting) (size : ℕ) → slice ≡ all_or MOST_SLICE size → HasKept self.new settings (wraps action) size granted [] }
        ensures accepted { self.new.accepted ≡ 0 }
        ensures storage { self.new.ring.storage ≡ self.old.ring.storage }
        ensures places { self.new.ring.places ≡ self.old.ring.places }
    {
        self.ring.begin(granted, slice);
        self.action = action;
        self.slice = slice;
        self.accepted = 0;
        self.lost = false;
    }

    /// Accepts a packet: one more that is kept, or that isn't where the buffer is full and locked.
    pub fn accept(&mut self, passing: &Passing<'_>)
        requires room { self.old.accepted < MOST_FRAMES }
        requires captured { length passing.now.octets.now ≤ MOST_SLICE }
        ensures kept { (settings : Counting) (is_wrap : Bool) (size granted : ℕ) (earlier : List Frame) (frame : Frame)
            → IsOf settings frame passing.now.facts passing.now.octets.now passing.now.number passing.now.moment
            → HasKept self.old settings is_wrap size granted earlier → HasKept self.new settings is_wrap size granted (frame ∷ earlier) }
        ensures accepted { self.new.accepted ≡ self.old.accepted + 1 }
        ensures storage { self.new.ring.storage ≡ self.old.ring.storage }
        ensures places { self.new.ring.places ≡ self.old.ring.places }
    {
        self.accepted += 1;
        let info = PacketInfo {
            number: self.accepted,
            id: passing.number,
            length: passing.facts.length,
            moment: passing.moment,
            status: passing.facts.status,
        };
        let stored = &passing.octets[..passing.octets.len().min(self.slice)];
        self.lost = keep(&mut self.ring, self.action, self.lost, info, stored);
    }

    /// How many packets are kept.
    pub fn len(&self) -> usize
        ensures { result ≡ length self.now.ring.packets }
    {
        self.ring.len()
    }

    /// The number of the oldest packet that is kept, or of the next one where none is. The numbers of those that are kept follow one another.
    pub fn oldest(&self) -> u32
        ensures value { result ≡ oldest_in self.now }
        ensures some { 1 ≤ result }
        ensures few { result ≤ MOST_FRAMES + 1 }
    {
        match self.action {
            FullAction::Lock => 1,
            FullAction::Wrap => self.accepted - self.ring.len() as u32 + 1,
        }
    }

    /// The packet with a number. None where it isn't kept.
    pub fn numbered(&self, number: u32) -> Option<Packet<'_, PacketInfo>>
        ensures { option_map (λ packet. stored packet.info packet.octets.now) result ≡ packet_with self.now number }
    {
        let oldest = self.oldest();
        if number < oldest {
            return None;
        }
        self.packet((number - oldest) as usize)
    }

    /// The packet at a place, from 0 for the oldest that is kept; None behind the last.
    pub fn packet(&self, at: usize) -> Option<Packet<'_, PacketInfo>>
        ensures { option_map (λ packet. stored packet.info packet.octets.now) result ≡ slice_get self.now.ring.packets at }
    {
        self.ring.get(at)
    }
}

// Keeps a packet, or not, by what a buffer does where it is full and by whether one was lost before, and answers whether one is lost
// then. Once a packet was lost in a buffer that locks, no other one is kept.
fn keep(
    ring: &mut Ring<PacketInfo>,
    action: FullAction,
    lost: bool,
    info: PacketInfo,
    octets: &[u8],
) -> bool
    requires { length octets.now ≤ ring.old.slice }
    ensures ring { ring.new ≡ ring_after action lost ring.old (stored info octets.now) }
    ensures lost { result ≡ lost_after action lost ring.old (stored info octets.now) }
{
    match action {
        FullAction::Lock => lost || !ring.keep_if_room(info, octets),
        FullAction::Wrap => ring.keep_latest(info, octets) || lost,
    }
}
