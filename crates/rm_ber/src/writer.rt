// A writer of canonical elements.
pub(crate) mod content;

ghost use Rattle.std.specs.Prelude.{◌≡◌, ◌≤◌, ◌↔◌, ◌+◌, ◌<◌, List, ℕ, [], ◌∷◌, ◌++◌, length, IsOk, OnOk, OnErr};
ghost use Rattle.rm_val.specs.Val.{val_of, int, octets};
ghost use Rattle.rm_val.specs.Spellable.{IsSpellable, HasSpelling};
ghost use Rattle.rm_ber.specs.Element.{length_octets, element, number_octets, value_element};
ghost use Rattle.rm_ber.specs.Canonical.{name_value, IsAccepted};

use crate::sizes::{element_size, length_size};
use crate::tag::{
    COUNTER32, COUNTER64, END_OF_MIB_VIEW, GAUGE32, INTEGER, IP_ADDRESS, NO_SUCH_INSTANCE,
    NO_SUCH_OBJECT, NULL, OBJECT_IDENTIFIER, OCTET_STRING, OPAQUE, TIME_TICKS,
};
use crate::writer::content::{integer_content, name_content, unsigned_content};
use arrayvec::ArrayVec;
use byteorder::{BigEndian, ByteOrder};
use rm_val::{Oid, Value};
use std::marker::Model;

/// There was no room for all the octets of a call, and none of them was appended.
#[derive(Clone, Copy, Debug, PartialEq, Eq)]
pub struct Room;

/// Canonical elements one after the other (X.690, 8.1): each length and each integer takes the fewest octets, the
/// highest first. They have at most 1472 octets in all, as many as a UDP datagram holds in one Ethernet frame, and are
/// kept inline.
#[derive(Drop)]
pub struct Writer {
    octets: ArrayVec<u8, 1472>,
}

impl Model for Writer {
    ghost use Rattle.std.specs.Prelude.{ℕ, List};

    ghost Value = { List ℕ };

    ghost view = { λ s. s.octets.items };
}

impl Writer {
    /// No octets.
    pub fn new() -> Writer
        ensures { result ≡ [] }
    {
        Writer {
            octets: ArrayVec::new(),
        }
    }

    /// How many octets were appended, at most 1472.
    pub fn len(&self) -> usize
        ensures value { result ≡ length self.now }
        ensures fits { result ≤ 1472 }
    {
        self.octets.len()
    }

    /// The octets in the order in which they were appended.
    pub fn bytes(&self) -> &[u8]
        ensures { result.now ≡ self.now }
    {
        self.octets.as_slice()
    }

    /// Appends a tag, and the length of so many octets of content, without the content (X.690, 8.1.3): one octet below
    /// 0x80, or 0x81 to 0x84 and 1 to 4 more. Room where the tag and the length don't fit; the octets are then as before.
    pub fn put_header(&mut self, tag: u8, content: usize) -> Result<(), Room>
        requires { content ≤ 4294967295 }
        ensures room { IsOk result ↔ (length self.old + length (tag ∷ length_octets content) ≤ 1472) }
        ensures ok { OnOk result (self.new ≡ self.old ++ tag ∷ length_octets content) }
        ensures err { OnErr result (self.new ≡ self.old) }
    {
        if content < 0x80 {
            return self.append(&[tag, content as u8]);
        }
        let count = length_size(content) - 1;
        let mut octets = [tag, 0x80 | count as u8, 0, 0, 0, 0];
        BigEndian::write_uint(&mut octets[2..], content as u64, count);
        self.append(&octets[..2 + count])
    }

    /// Appends the canonical element of a value (RFC 1905, section 3), which is accepted as this value whatever follows
    /// it. Room where the whole element doesn't fit; the octets are then as before.
    #[tactic(auto, using(crate::proofs::CanonicalValues::once_put))]
    pub fn put(&mut self, value: &Value<'_>) -> Result<(), Room>
        requires { HasSpelling (val_of value.now) }
        ensures room { IsOk result ↔ (length self.old + length (value_element (val_of value.now)) ≤ 1472) }
        ensures ok { OnOk result (self.new ≡ self.old ++ value_element (val_of value.now)) }
        ensures accepted { OnOk result (IsAccepted (val_of value.now)) }
        ensures err { OnErr result (self.new ≡ self.old) }
    {
        match value {
            Value::Int(number) => self.put_integer(*number),
            Value::Octets(octets) => self.put_octets(octets),
            Value::Null => self.put_element(NULL, &[]),
            Value::Name(name) => self.put_name(name),
            Value::Ip(octets) => self.put_element(IP_ADDRESS, octets),
            Value::Counter(number) => self.put_unsigned(COUNTER32, u64::from(*number)),
            Value::Gauge(number) => self.put_unsigned(GAUGE32, u64::from(*number)),
            Value::Ticks(number) => self.put_unsigned(TIME_TICKS, u64::from(*number)),
            Value::Opaque(octets) => self.put_element(OPAQUE, octets),
            Value::Big(number) => self.put_unsigned(COUNTER64, *number),
            Value::NoObject => self.put_element(NO_SUCH_OBJECT, &[]),
            Value::NoInstance => self.put_element(NO_SUCH_INSTANCE, &[]),
            Value::EndOfView => self.put_element(END_OF_MIB_VIEW, &[]),
        }
    }

    /// Appends the canonical element of a name (X.690, 8.19), which is accepted as this name whatever follows it. Room
    /// where the whole element doesn't fit; the octets are then as before.
    #[tactic(auto, using(crate::proofs::CanonicalValues::once_put))]
    pub fn put_name(&mut self, name: &Oid) -> Result<(), Room>
        requires { IsSpellable name.now }
        ensures room { IsOk result ↔ (length self.old + length (value_element (name_value name.now)) ≤ 1472) }
        ensures ok { OnOk result (self.new ≡ self.old ++ value_element (name_value name.now)) }
        ensures accepted { OnOk result (IsAccepted (name_value name.now)) }
        ensures err { OnErr result (self.new ≡ self.old) }
    {
        self.put_element(OBJECT_IDENTIFIER, &name_content(name))
    }

    /// Appends the canonical element of a signed number (X.690, 8.3). Room where the whole element doesn't fit; the octets are
    /// then as before.
    pub fn put_integer(&mut self, number: i32) -> Result<(), Room>
        ensures room { IsOk result ↔ (length self.old + length (value_element (int number)) ≤ 1472) }
        ensures ok { OnOk result (self.new ≡ self.old ++ value_element (int number)) }
        ensures err { OnErr result (self.new ≡ self.old) }
    {
        self.put_element(INTEGER, &integer_content(number))
    }

    /// Appends the canonical element of an OCTET STRING (X.690, 8.7). Room where the whole element doesn't fit; the octets are
    /// then as before.
    pub fn put_octets(&mut self, bytes: &[u8]) -> Result<(), Room>
        ensures room { IsOk result ↔ (length self.old + length (value_element (octets bytes.now)) ≤ 1472) }
        ensures ok { OnOk result (self.new ≡ self.old ++ value_element (octets bytes.now)) }
        ensures err { OnErr result (self.new ≡ self.old) }
    {
        self.put_element(OCTET_STRING, bytes)
    }

    // Appends the element with that tag and content.
    #[tactic(auto, unfolding(crate::specs::Element::element))]
    fn put_element(&mut self, tag: u8, content: &[u8]) -> Result<(), Room>
        ensures room { IsOk result ↔ (length self.old + length (element tag content.now) ≤ 1472) }
        ensures ok { OnOk result (self.new ≡ self.old ++ element tag content.now) }
        ensures err { OnErr result (self.new ≡ self.old) }
    {
        if element_size(content.len()) > self.octets.remaining_capacity() {
            return Err(Room);
        }
        self.put_header(tag, content.len())?;
        self.append(content)
    }

    // Appends the element with that tag and an unsigned number.
    fn put_unsigned(&mut self, tag: u8, number: u64) -> Result<(), Room>
        ensures room { IsOk result ↔ (length self.old + length (element tag (number_octets number)) ≤ 1472) }
        ensures ok { OnOk result (self.new ≡ self.old ++ element tag (number_octets number)) }
        ensures err { OnErr result (self.new ≡ self.old) }
    {
        self.put_element(tag, &unsigned_content(number))
    }

    // Appends these octets. Room where they don't all fit.
    fn append(&mut self, octets: &[u8]) -> Result<(), Room>
        ensures room { IsOk result ↔ (length self.old + length octets.now ≤ 1472) }
        ensures ok { OnOk result (self.new ≡ self.old ++ octets.now) }
        ensures err { OnErr result (self.new ≡ self.old) }
    {
        self.octets.try_extend_from_slice(octets).map_err(|_| Room)
    }
}
