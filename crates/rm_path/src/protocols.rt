// The protocols that are active.
ghost use Rattle.std.specs.Prelude.{◌≡◌, ◌<◌, false, [], ◌∷◌, None, Some, IfOk, IfErr, IfSome, IfNone, length, replicate, slice_set};
ghost use Rattle.rm_path.specs.Order.{AreRising, IsAt, IsGap};
ghost use Rattle.rm_path.specs.Slots.{protocol_in, identifier_in, is_active, IsSlotOfFirst, AreFull, HaveSlots};

use crate::entry::Entry;
use crate::identifier::ProtocolIdentifier;
use crate::protocol::Protocol;
use arrayvec::ArrayVec;
use std::marker::Model;

/// How many slots there are: one for each row that the directory can have.
pub const SLOTS: usize = 32;

/// The protocols that are active, each in a slot. A protocol is found by a few comparisons, however many there are.
#[derive(Drop)]
pub struct Protocols {
    slots: [Option<Protocol>; SLOTS],
    // Where each is, in the order of their numbers.
    order: ArrayVec<Entry, SLOTS>,
}

impl Model for Protocols {
    ghost use Rattle.std.specs.Prelude.{List, Option};
    ghost use Rattle.rm_path.specs.declared.protocol.Protocol.{Protocol};
    ghost use Rattle.rm_path.specs.Slots.{AreOfSlots};

    ghost Value = { List (Option Protocol) };

    ghost view = { λ s. s.slots };

    ghost invariant = { λ s. AreOfSlots s.slots s.order.items };
}

impl Protocols {
    /// No protocol is active.
    pub fn new() -> Protocols
        ensures { result ≡ replicate 32 None }
    {
        Protocols {
            slots: [None; SLOTS],
            order: ArrayVec::new(),
        }
    }

    /// Puts a protocol that isn't active yet into a slot that is empty.
    pub fn add(&mut self, slot: u8, protocol: Protocol)
        requires within { slot < 32 }
        requires empty { protocol_in self.old slot ≡ None }
        requires inactive { is_active self.old protocol.identifier ≡ false }
        ensures { self.new ≡ slice_set self.old slot (Some protocol) }
    {
        let number = protocol.identifier.number();
        if let Err(place) = place_of(self.order.as_slice(), number) {
            self.order.insert(place, Entry { number, slot });
            self.slots[usize::from(slot)] = Some(protocol);
        }
    }

    /// Takes away the protocol in a slot, if there is one.
    pub fn remove(&mut self, slot: u8)
        requires { slot < 32 }
        ensures { self.new ≡ slice_set self.old slot None }
    {
        let Some(protocol) = self.slots[usize::from(slot)] else {
            return;
        };
        if let Ok(place) = place_of(self.order.as_slice(), protocol.identifier.number()) {
            self.order.remove(place);
            self.slots[usize::from(slot)] = None;
        }
    }

    /// Puts what is known now of the protocol in a slot.
    pub fn renew(&mut self, slot: u8, protocol: Protocol)
        requires within { slot < 32 }
        requires same { identifier_in self.old slot ≡ Some protocol.identifier }
        ensures { self.new ≡ slice_set self.old slot (Some protocol) }
    {
        self.slots[usize::from(slot)] = Some(protocol);
    }

    /// A slot that is empty. None where each has a protocol.
    pub fn free_slot(&self) -> Option<u8>
        ensures some { IfSome result (λ slot. (slot < 32) × (protocol_in self.now slot ≡ None)) }
        ensures none { IfNone result (AreFull self.now) }
        ensures slots { HaveSlots self.now }
    {
        let place = self.slots.iter().position(|held| held.is_none())?;
        Some(place as u8)
    }

    /// A law: there are 32 slots, and no protocol is in two of them. It does nothing.
    pub fn are_apart(&self)
        ensures { HaveSlots self.now }
    {
        let _ = &self.slots;
    }

    /// The protocol in a slot. None where the slot is empty.
    pub fn get(&self, slot: u8) -> Option<Protocol>
        requires { slot < 32 }
        ensures value { result ≡ protocol_in self.now slot }
        ensures count { length self.now ≡ 32 }
    {
        self.slots[usize::from(slot)]
    }

    /// The slot of a protocol. None where it isn't active.
    pub fn slot_of(&self, identifier: ProtocolIdentifier) -> Option<u8>
        ensures { IsSlotOfFirst self.now (identifier ∷ []) result }
    {
        match place_of(self.order.as_slice(), identifier.number()) {
            Ok(place) => Some(self.order[place].slot),
            Err(_) => None,
        }
    }
}

// The place of a number among entries whose numbers rise, or that before which it belongs.
fn place_of(entries: &[Entry], number: u32) -> Result<usize, usize>
    requires { AreRising entries.now }
    ensures found { IfOk result (IsAt entries.now number) }
    ensures absent { IfErr result (IsGap entries.now number) }
{
    entries.binary_search_by_key(&number, |entry| entry.number)
}
