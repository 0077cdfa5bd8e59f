// The slots of the protocols that are active, as the rows change.
ghost use Rattle.std.specs.Prelude.{◌≡◌, ◌<◌, ℕ, true, length, option_and_then, Some, slice_set};
ghost use Rattle.rm_path.specs.Identifier.{number_of};
ghost use Rattle.rm_path.specs.Slots.{protocol_in, is_active, HaveSlots};
ghost use Rattle.rm_path.specs.declared.identifier.ProtocolIdentifier.{ProtocolIdentifier as Identifier};
ghost use Rattle.rm_path.specs.declared.protocol.Protocol.{Protocol as Known};
ghost use Rattle.rm_dir.specs.Active.{held_protocol};
ghost use Rattle.rm_dir.specs.DirectoryIndex.{row_protocol};
ghost use Rattle.rm_dir.specs.Paths.{AreKnown, AreOfRows, DoStay};

use crate::active::held_protocol;
use crate::keys::row_protocol;
use crate::row::DirectoryRow;
use rm_path::{Protocol, Protocols, SLOTS};
use rm_status::{Controls, MAX_ROWS};

/// Takes the protocols away that aren't active any more, and puts those in that have become active. The others stay in their slots.
pub(crate) fn follow(protocols: &mut Protocols, rows: &Controls<DirectoryRow>)
    ensures active { AreOfRows rows.now protocols.new }
    ensures stay { DoStay rows.now protocols.old protocols.new }
    ensures apart { HaveSlots protocols.new }
{
    renew_all(protocols, rows);
    put_in_all(protocols, rows);
    protocols.are_apart();
}

// Keeps what is known now of the protocols that are still active, and takes the others away.
fn renew_all(protocols: &mut Protocols, rows: &Controls<DirectoryRow>)
    ensures { (slot : ℕ) → protocol_in protocols.new slot ≡ option_and_then (λ held. held_protocol rows.now held.identifier) (protocol_in protocols.old slot) }
{
    for slot in 0..SLOTS as u8 {
        renew(protocols, rows, slot);
    }
}

// Keeps what is known now of the protocol in a slot, or takes it away.
fn renew(protocols: &mut Protocols, rows: &Controls<DirectoryRow>, slot: u8)
    requires { slot < 32 }
    ensures slots { protocols.new ≡ slice_set protocols.old slot (option_and_then (λ held. held_protocol rows.now held.identifier) (protocol_in protocols.old slot)) }
    ensures count { length protocols.new ≡ 32 }
{
    if let Some(protocol) = protocols.get(slot) {
        match held_protocol(rows, protocol.identifier) {
            Some(known) => protocols.renew(slot, known),
            None => protocols.remove(slot),
        }
    }
}

// Puts the protocols in that have become active.
fn put_in_all(protocols: &mut Protocols, rows: &Controls<DirectoryRow>)
    requires { AreKnown rows.now protocols.old }
    ensures active { AreOfRows rows.now protocols.new }
    ensures stay { (slot : ℕ) (protocol : Known) → protocol_in protocols.old slot ≡ Some protocol → protocol_in protocols.new slot ≡ Some protocol }
{
    let mut at = 0;
    while let Some(number) = rows.after(at) {
        put_in(protocols, rows, number);
        at = number;
    }
}

// Puts the protocol of a row in, where it is active and has no slot yet.
fn put_in(protocols: &mut Protocols, rows: &Controls<DirectoryRow>, number: u32)
    requires { AreKnown rows.now protocols.old }
    ensures known { AreKnown rows.now protocols.new }
    ensures stay { (slot : ℕ) (protocol : Known) → protocol_in protocols.old slot ≡ Some protocol → protocol_in protocols.new slot ≡ Some protocol }
    ensures active { (identifier : Identifier) (protocol : Known) → number_of identifier ≡ number → held_protocol rows.now identifier ≡ Some protocol
        → is_active protocols.new identifier ≡ true }
{
    prove!(rows.len() <= MAX_ROWS);
    let Some(protocol) = protocol_at(rows, number) else {
        return;
    };
    if protocols.slot_of(protocol.identifier).is_some() {
        return;
    }
    if let Some(slot) = protocols.free_slot() {
        protocols.add(slot, protocol);
    }
}

// What is known of the protocol of a row, where it is active.
fn protocol_at(rows: &Controls<DirectoryRow>, number: u32) -> Option<Protocol>
    ensures { result ≡ option_and_then (held_protocol rows.now) (row_protocol number) }
{
    held_protocol(rows, row_protocol(number)?)
}
