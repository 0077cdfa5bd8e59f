// Writing a message.
ghost use Rattle.std.specs.Prelude.{◌≡◌, ◌≤◌, ◌<◌, ◌↔◌, ◌+◌, ◌++◌, length, take, drop, IsTrue, false, IsOk, OnOk, OnErr, IfOk};
ghost use Rattle.rm_val.specs.Val.{val_of, int, octets};
ghost use Rattle.rm_val.specs.Spellable.{IsSpellable, HasSpelling};
ghost use Rattle.rm_ber.specs.Element.{value_element};
ghost use Rattle.rm_ber.specs.Canonical.{name_value, HasLength};
ghost use Rattle.rm_pdu.specs.Message.{Message, binding_octets, message_octets};
ghost use Rattle.rm_pdu.specs.Spells.{Spells};
ghost use Rattle.rm_pdu.specs.Draft.{drafted, empty_message, binding_of, and_binding, retold, IsWritable};
ghost use Rattle.rm_pdu.specs.DraftParts.{header, header_size, element_size, pdu_size, content_size, message_size, front_octets};

use crate::kind::Kind;
use crate::layout::{SEQUENCE, VERSION};
use arrayvec::ArrayVec;
use rm_ber::{
    Room, Writer, elements_read_back, integer_element_size, length_size, name_size,
    octets_element_size, size, values_read_back,
};
use rm_val::{Oid, Value};
use std::marker::Model;

/// The most octets that a message is written in.
const MOST_OCTETS: usize = 1472;

/// A message that is being written, of at most 1472 octets. It keeps its community and its bindings inline.
#[derive(Drop)]
pub struct Draft {
    community: ArrayVec<u8, 127>,
    kind: Kind,
    id: i32,
    status: i32,
    index: i32,
    // the canonical octets of the bindings
    list: Writer,
}

impl Model for Draft {
    ghost use Rattle.std.specs.Prelude.{◌≤◌, length};
    ghost use Rattle.rm_pdu.specs.Draft.{Drafted};
    ghost use Rattle.rm_pdu.specs.DraftParts.{message_size};

    ghost Value = { Drafted };

    ghost view = { λ d. record { community = d.community.items; kind = d.kind; id = d.id; first = d.status; second = d.index; list = d.list } };

    ghost invariant = { λ d. message_size (record { community = d.community.items; kind = d.kind; id = d.id; first = d.status; second = d.index; list = d.list }) (length d.list) ≤ 1472 };
}

impl Draft {
    /// A message with no bindings. `status` and `index` are the error-status and the error-index, in a GetBulkRequest
    /// the non-repeaters and the max-repetitions (RFC 1905, section 3). The community has at most 127 octets.
    #[tactic(auto, unfolding(crate::specs::Draft::drafted))]
    pub fn new(community: &[u8], kind: Kind, id: i32, status: i32, index: i32) -> Draft
        requires { length community.now ≤ 127 }
        ensures message { result ≡ drafted (empty_message community.now kind id status index) }
        ensures fits { length (message_octets (empty_message community.now kind id status index)) ≤ 1472 }
    {
        let mut octets = ArrayVec::new();
        append(&mut octets, community);
        Draft {
            community: octets,
            kind,
            id,
            status,
            index,
            list: Writer::new(),
        }
    }

    /// Puts a binding behind the others. Room where the whole message would then have more than 1472 octets; the
    /// draft is then as before.
    pub fn add(&mut self, name: &Oid, value: &Value<'_>) -> Result<(), Room>
        requires name { IsSpellable name.now }
        requires value { HasSpelling (val_of value.now) }
        ensures room { (m : Message) → self.old ≡ drafted m
            → (IsOk result ↔ (length (message_octets (and_binding m name.now (val_of value.now))) ≤ 1472)) }
        ensures ok { (m : Message) → self.old ≡ drafted m
            → OnOk result (self.new ≡ drafted (and_binding m name.now (val_of value.now))) }
        ensures err { OnErr result (self.new ≡ self.old) }
    {
        let content = binding_content_size(name, value)?;
        if self.size_with(self.list.len() + element_size(content)) > MOST_OCTETS {
            return Err(Room);
        }
        put_header(&mut self.list, SEQUENCE, content);
        put_name(&mut self.list, name);
        put(&mut self.list, value);
        Ok(())
    }

    /// Tells this error-status and this error-index in place of those before, with which the whole message has at most 1472
    /// octets.
    pub fn tell(&mut self, status: i32, index: i32)
        requires { (m : Message) × (self.old ≡ drafted m) × (length (message_octets (retold m status index)) ≤ 1472) }
        ensures { (m : Message) → self.old ≡ drafted m → self.new ≡ drafted (retold m status index) }
    {
        self.status = status;
        self.index = index;
    }

    /// Writes the message to the front of `out`, each length and each integer in the fewest octets (RFC 1901,
    /// section 3), and answers how many octets it has. The octets behind it stay as they were.
    pub fn finish(self, out: &mut [u8; 1472]) -> usize
        ensures count { (m : Message) → self ≡ drafted m → result ≡ length (message_octets m) }
        ensures written { (m : Message) → self ≡ drafted m → out.new ≡ message_octets m ++ drop result out.old }
        ensures fits { result ≤ 1472 }
    {
        let front = self.front();
        let after_front = place_at(out, 0, front.bytes());
        place_at(out, after_front, self.list.bytes())
    }

    // The octets of the message before those of its bindings.
    #[tactic(auto, unfolding(crate::specs::DraftParts::front_octets))]
    fn front(&self) -> Writer
        ensures octets { result ≡ front_octets self.now }
        ensures room { length (front_octets self.now) + length self.now.list ≤ 1472 }
    {
        let list = self.list.len();
        let mut front = Writer::new();
        put_header(&mut front, SEQUENCE, self.content_size(list));
        put_integer(&mut front, VERSION);
        put_octets(&mut front, &self.community);
        put_header(&mut front, self.kind.tag(), self.pdu_size(list));
        put_integer(&mut front, self.id);
        put_integer(&mut front, self.status);
        put_integer(&mut front, self.index);
        put_header(&mut front, SEQUENCE, list);
        front
    }

    // How many octets the message has if its bindings have so many.
    fn size_with(&self, list: usize) -> usize
        requires { list ≤ 2944 }
        ensures { result ≡ message_size self.now list }
    {
        element_size(self.content_size(list))
    }

    // How many octets the content of the message has.
    #[tactic(auto, using(crate::proofs::DraftSizes::octets_short))]
    fn content_size(&self, list: usize) -> usize
        requires { list ≤ 2944 }
        ensures value { result ≡ content_size self.now list }
        ensures short { result ≤ 3200 }
    {
        integer_element_size(VERSION)
            + octets_element_size(&self.community)
            + element_size(self.pdu_size(list))
    }

    // How many octets the content of the PDU has.
    fn pdu_size(&self, list: usize) -> usize
        requires { list ≤ 2944 }
        ensures value { result ≡ pdu_size self.now list }
        ensures short { result ≤ 3000 }
    {
        integer_element_size(self.id)
            + integer_element_size(self.status)
            + integer_element_size(self.index)
            + element_size(list)
    }
}

// How many octets an element takes, given those of its content.
fn element_size(content: usize) -> usize
    requires { content ≤ 4294967295 }
    ensures value { result ≡ element_size content }
    ensures short { result ≤ content + 6 }
{
    header_size(content) + content
}

// How many octets it takes before its content.
#[tactic(auto, unfolding(crate::specs::DraftParts::header_size))]
fn header_size(content: usize) -> usize
    ensures value { result ≡ header_size content }
    ensures short { result ≤ 6 }
{
    1 + length_size(content)
}

// How many octets the content of a binding takes. Room where its element takes more than 1472.
#[tactic(auto, using(crate::proofs::DraftSizes::binding_size))]
fn binding_content_size(name: &Oid, value: &Value<'_>) -> Result<usize, Room>
    requires name { IsSpellable name.now }
    requires value { HasSpelling (val_of value.now) }
    ensures room { IsOk result ↔ (length (binding_octets (binding_of name.now (val_of value.now))) ≤ 1472) }
    ensures ok { IfOk result (λ content. content ≡ length (value_element (name_value name.now)) + length (value_element (val_of value.now))) }
    ensures few { IfOk result (λ content. element_size content ≤ 1472) }
{
    if !is_short(value) {
        return Err(Room);
    }
    let name = name_size(name);
    let value = size(value);
    if name > MOST_OCTETS || value > MOST_OCTETS || element_size(name + value) > MOST_OCTETS {
        return Err(Room);
    }
    Ok(name + value)
}

// Whether the octets of a value are no more than a message has.
#[tactic(auto, unfolding(rm_ber::specs::Element::element))]
fn is_short(value: &Value<'_>) -> bool
    ensures short { IsTrue result → HasLength (val_of value.now) }
    ensures long { result ≡ false → 1472 < length (value_element (val_of value.now)) }
{
    match value {
        Value::Octets(octets) | Value::Opaque(octets) => octets.len() <= MOST_OCTETS,
        _ => true,
    }
}

// Appends the tag and the length of an element. There is room for them.
#[tactic(auto, unfolding(crate::specs::DraftParts::header, crate::specs::DraftParts::header_size))]
fn put_header(out: &mut Writer, tag: u8, content: usize)
    requires short { content ≤ 4294967295 }
    requires room { length out.old + header_size content ≤ 1472 }
    ensures octets { out.new ≡ out.old ++ header tag content }
    ensures size { length out.new ≡ length out.old + header_size content }
{
    out.put_header(tag, content).unwrap()
}

// Appends the element of a value. There is room for it.
fn put(out: &mut Writer, value: &Value<'_>)
    requires spelling { HasSpelling (val_of value.now) }
    requires room { length out.old + length (value_element (val_of value.now)) ≤ 1472 }
    ensures octets { out.new ≡ out.old ++ value_element (val_of value.now) }
    ensures size { length out.new ≡ length out.old + length (value_element (val_of value.now)) }
{
    out.put(value).unwrap()
}

// Appends the element of a name. There is room for it.
fn put_name(out: &mut Writer, name: &Oid)
    requires spelling { IsSpellable name.now }
    requires room { length out.old + length (value_element (name_value name.now)) ≤ 1472 }
    ensures octets { out.new ≡ out.old ++ value_element (name_value name.now) }
    ensures size { length out.new ≡ length out.old + length (value_element (name_value name.now)) }
{
    out.put_name(name).unwrap()
}

// Appends the element of a number. There is room for it.
fn put_integer(out: &mut Writer, number: i32)
    requires room { length out.old + length (value_element (int number)) ≤ 1472 }
    ensures octets { out.new ≡ out.old ++ value_element (int number) }
    ensures size { length out.new ≡ length out.old + length (value_element (int number)) }
{
    out.put_integer(number).unwrap()
}

// Appends the element of octets. There is room for it.
fn put_octets(out: &mut Writer, bytes: &[u8])
    requires room { length out.old + length (value_element (octets bytes.now)) ≤ 1472 }
    ensures octets { out.new ≡ out.old ++ value_element (octets bytes.now) }
    ensures size { length out.new ≡ length out.old + length (value_element (octets bytes.now)) }
{
    out.put_octets(bytes).unwrap()
}

// Puts octets in the place of those that stand from there on, and answers where they end.
fn place_at(out: &mut [u8; 1472], from: usize, octets: &[u8]) -> usize
    requires { from + length octets.now ≤ 1472 }
    ensures value { out.new ≡ take from out.old ++ octets.now ++ drop result out.old }
    ensures end { result ≡ from + length octets.now }
{
    let to = from + octets.len();
    out[from..to].copy_from_slice(octets);
    to
}

fn append<const N: usize>(out: &mut ArrayVec<u8, N>, octets: &[u8])
    requires { length out.old.items + length octets.now ≤ N }
    ensures { out.new.items ≡ out.old.items ++ octets.now }
{
    // There is room.
    let _ = out.try_extend_from_slice(octets);
}

/// A law: a message is what its canonical octets spell.
pub fn reads_back()
    ensures { (m : Message) → IsWritable m → Spells (message_octets m) m }
{
    elements_read_back();
    values_read_back();
}
