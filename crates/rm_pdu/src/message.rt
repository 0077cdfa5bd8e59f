// Reading a message from its octets.
ghost use Rattle.std.specs.Prelude.{◌≡◌, ◌≤◌, ◌<◌, ◌^◌, ◌↔◌, IsTrue, pos, ℕ, List, [], Bool, IsOk, length, ◌∷◌, true, false, MatchResult, IfOk};
ghost use Rattle.rm_val.specs.Val.{name};
ghost use Rattle.rm_ber.specs.Grammar.{StandsFirst, ValueFirst, end_of};
ghost use Rattle.rm_pdu.specs.declared.kind.Kind.{Kind};
ghost use Rattle.rm_pdu.specs.Message.{Binding, kind_tag};
ghost use Rattle.rm_pdu.specs.Placed.{IsPlaced};
ghost use Rattle.rm_pdu.specs.Parse.{version, pdu, request_id, bindings, binding, binding_name, binding_end, pdu_end, is_read, is_request};
ghost use Rattle.rm_pdu.specs.Answers.{IsVerdict};
ghost use Rattle.rm_pdu.specs.Reading.{IsAt, Fails, Envelope, AreNumbers, OneBinding, AllBindings, WholePdu, IsRead};
ghost use Rattle.rm_pdu.specs.declared.message.Fault.TheVariants.{Malformed};

use crate::kind::Kind;
use crate::laws::one_parse;
use crate::layout::{SEQUENCE, VERSION};
use crate::places::{Offsets, Places};
use rm_ber::{Bad, Reader};

/// The most octets of a datagram that are read.
const MOST_OCTETS: usize = 8192;

/// A message, but for its bindings.
#[derive(Clone, Copy, Debug, PartialEq, Eq)]
pub struct Message<'a> {
    /// The community, any octets.
    pub community: &'a [u8],
    pub kind: Kind,
    /// The request-id.
    pub id: i32,
    /// The error-status, or the non-repeaters of a GetBulkRequest.
    pub first: i32,
    /// The error-index, or the max-repetitions of a GetBulkRequest.
    pub second: i32,
    /// How many bindings there are.
    pub count: u32,
}

/// Why octets aren't read as a message.
#[derive(Clone, Copy, Debug, PartialEq, Eq)]
pub enum Fault {
    /// There are more than 8192 octets.
    TooLong,
    /// At that offset stands neither what must come next nor what may.
    Malformed(usize),
    /// The version isn't 1.
    Version(i32),
    /// The PDU with that tag isn't a request.
    NotRequest(u8),
}

impl From<Bad> for Fault {
    ghost from_gives = { λ bad fault. fault ≡ Malformed bad.at };

    fn from(bad: Bad) -> Fault {
        Fault::Malformed(bad.at)
    }
}

fn is_read_version(version: i32) -> bool
    ensures { IsTrue result ↔ (version ≡ pos 1) }
{
    version == VERSION
}

// Reads the version and the community.
fn read_envelope<'a>(content: &mut Reader<'a>) -> Result<&'a [u8], Fault>
    ensures part { (requests : Bool) (bytes : List ℕ) (outer : List (List ℕ)) → IsAt requests bytes version outer content.old
        → MatchResult result
        (λ text. IsAt requests bytes pdu outer content.new × Envelope text.now content.new.left content.old.left)
        (Fails requests bytes) }
    ensures end { end_of content.new ≡ end_of content.old }
{
    let version = content.int()?;
    if !is_read_version(version) {
        return Err(Fault::Version(version));
    }
    let community = content.octets()?;
    Ok(community)
}

// The kind of the PDU that comes next, or of a GetRequest where none comes.
fn next_kind(content: &Reader<'_>) -> Kind
    ensures comes { (kind : Kind) (more : List ℕ) → content.now.left ≡ kind_tag kind ∷ more → result ≡ kind }
    ensures other { is_request result ≡ false → (more : List ℕ) × (content.now.left ≡ kind_tag result ∷ more) }
{
    let Some(tag) = content.peek() else {
        return Kind::Get;
    };
    match Kind::of_tag(tag) {
        Some(kind) => kind,
        None => Kind::Get,
    }
}

// Whether PDUs of the kind are read, where requests alone are read or all.
fn is_read(kind: Kind, requests: bool) -> bool
    ensures { result ≡ is_read requests kind }
{
    !requests || kind.is_request()
}

// Passes the header of the PDU.
fn open_pdu<'a>(content: &mut Reader<'a>, requests: bool) -> Result<(Kind, Reader<'a>), Fault>
    ensures part { (bytes : List ℕ) (outer : List (List ℕ)) → IsAt requests bytes pdu outer content.old
        → MatchResult result
        (λ opened. IsAt requests bytes request_id (content.new.left ∷ outer) opened.1 × (is_read requests opened.0 ≡ true)
        × StandsFirst (kind_tag opened.0) opened.1.left content.new.left content.old.left)
        (Fails requests bytes) }
    ensures inside { IfOk result (λ opened. end_of opened.1 ≡ content.new.at) }
    ensures end { end_of content.new ≡ end_of content.old }
{
    let kind = next_kind(content);
    if !is_read(kind, requests) {
        return Err(Fault::NotRequest(kind.tag()));
    }
    let pdu = content.enter(kind.tag())?;
    Ok((kind, pdu))
}

// The three numbers of a PDU.
#[derive(Clone, Copy)]
struct Numbers {
    id: i32,
    first: i32,
    second: i32,
}

impl Numbers {
    fn new(id: i32, first: i32, second: i32) -> Numbers
        ensures { (result.id ≡ id) × (result.first ≡ first) × (result.second ≡ second) }
    {
        Numbers { id, first, second }
    }
}

fn read_numbers(pdu: &mut Reader<'_>) -> Result<Numbers, Fault>
    ensures part { (requests : Bool) (bytes : List ℕ) (outer : List (List ℕ)) → IsAt requests bytes request_id outer pdu.old
        → MatchResult result
        (λ numbers. IsAt requests bytes bindings outer pdu.new × AreNumbers numbers pdu.new.left pdu.old.left)
        (Fails requests bytes) }
    ensures end { end_of pdu.new ≡ end_of pdu.old }
{
    let id = pdu.int()?;
    let first = pdu.int()?;
    let second = pdu.int()?;
    Ok(Numbers::new(id, first, second))
}

// Reads a name and a value, and tells where they stand.
fn read_pair(content: &mut Reader<'_>) -> Result<Offsets, Fault>
    ensures part { (requests : Bool) (bytes : List ℕ) (outer : List (List ℕ)) → IsAt requests bytes binding_name outer content.old
        → MatchResult result
        (λ offsets. IsAt requests bytes binding_end outer content.new
        × ((b : Binding) × (rest : List ℕ) × ValueFirst (name b.name) rest content.old.left × ValueFirst b.value content.new.left rest × IsPlaced bytes offsets b))
        (Fails requests bytes) }
    ensures end { end_of content.new ≡ end_of content.old }
{
    let at_name = content.offset();
    content.name()?;
    let at_value = content.offset();
    content.value()?;
    Ok(Offsets {
        name: at_name,
        value: at_value,
    })
}

// Reads a binding of a list that isn't at its end, and tells where its parts stand.
fn read_binding(list: &mut Reader<'_>) -> Result<Offsets, Fault>
    ensures part { (requests : Bool) (bytes : List ℕ) (outer : List (List ℕ)) → IsAt requests bytes binding outer list.old → (list.old.left ≡ [] → ⊥)
        → MatchResult result
        (λ offsets. IsAt requests bytes binding outer list.new × OneBinding bytes offsets list.new.left list.old.left)
        (Fails requests bytes) }
    ensures end { end_of list.new ≡ end_of list.old }
    ensures shorter { IsOk result → length list.new.left < length list.old.left }
{
    let mut content = list.enter(SEQUENCE)?;
    let offsets = read_pair(&mut content)?;
    content.finish()?;
    Ok(offsets)
}

// Reads bindings to the end of their list, and answers how many there are.
fn read_bindings(list: &mut Reader<'_>, into: &mut Places) -> Result<u32, Fault>
    requires empty { into.old ≡ [] }
    requires few { end_of list.old < 2 ^ 32 }
    ensures part { (requests : Bool) (bytes : List ℕ) (outer : List (List ℕ)) → IsAt requests bytes binding outer list.old
        → MatchResult result
        (λ count. IsAt requests bytes binding outer list.new × (list.new.left ≡ []) × AllBindings bytes into.new count list.old.left)
        (Fails requests bytes) }
    ensures end { end_of list.new ≡ end_of list.old }
{
    let mut count = 0;
    while list.peek().is_some() {
        let offsets = read_binding(list)?;
        into.keep(offsets);
        count += 1;
    }
    Ok(count)
}

// What stands in a PDU: its numbers, and how many bindings.
#[derive(Clone, Copy)]
struct Pdu {
    numbers: Numbers,
    count: u32,
}

// Reads the content of a PDU to its end.
fn read_pdu(pdu: &mut Reader<'_>, into: &mut Places) -> Result<Pdu, Fault>
    requires empty { into.old ≡ [] }
    requires few { end_of pdu.old < 2 ^ 32 }
    ensures part { (requests : Bool) (bytes : List ℕ) (outer : List (List ℕ)) → IsAt requests bytes request_id outer pdu.old
        → MatchResult result
        (λ read. IsAt requests bytes pdu_end outer pdu.new × (pdu.new.left ≡ []) × WholePdu bytes into.new read.numbers read.count pdu.old.left)
        (Fails requests bytes) }
    ensures end { end_of pdu.new ≡ end_of pdu.old }
{
    let numbers = read_numbers(pdu)?;
    let mut list = pdu.enter(SEQUENCE)?;
    let count = read_bindings(&mut list, into)?;
    pdu.finish()?;
    Ok(Pdu { numbers, count })
}

// Reads a message of 8192 octets at most.
fn read_whole<'a>(bytes: &'a [u8], requests: bool, into: &mut Places) -> Result<Message<'a>, Fault>
    requires empty { into.old ≡ [] }
    requires few { length bytes.now ≤ 8192 }
    ensures { MatchResult result (λ told. IsRead requests bytes.entry.now told into.new) (Fails requests bytes.entry.now) }
{
    let mut datagram = Reader::new(bytes);
    let mut content = datagram.enter(SEQUENCE)?;
    let community = read_envelope(&mut content)?;
    let (kind, mut pdu) = open_pdu(&mut content, requests)?;
    let read = read_pdu(&mut pdu, into)?;
    content.finish()?;
    datagram.finish()?;
    Ok(Message {
        community,
        kind,
        id: read.numbers.id,
        first: read.numbers.first,
        second: read.numbers.second,
        count: read.count,
    })
}

// Reads a message, of requests alone or of any kind of PDU.
fn read<'a>(bytes: &'a [u8], requests: bool, into: &mut Places) -> Result<Message<'a>, Fault>
    ensures { IsVerdict requests bytes.entry.now result into.new }
{
    one_parse();
    into.clear();
    if bytes.len() > MOST_OCTETS {
        return Err(Fault::TooLong);
    }
    match read_whole(bytes, requests, into) {
        Ok(message) => Ok(message),
        Err(fault) => {
            into.clear();
            Err(fault)
        }
    }
}

/// Reads a request: a message of version 1 with a GetRequest, GetNextRequest, SetRequest or GetBulkRequest, which is
/// all that the octets are. The places of its first 128 bindings come into `into`, and the rest is checked and
/// counted. After a fault `into` has no bindings.
///
/// The first fault in the order of the octets is told: `TooLong` where there are more than 8192, `Version` directly
/// after another version, `NotRequest` at the tag of another PDU, whatever follows it, and `Malformed` with the offset
/// of the tag of an element that breaks a rule or of the first octet that is left over.
pub fn read_message<'a>(bytes: &'a [u8], into: &mut Places) -> Result<Message<'a>, Fault>
    ensures { IsVerdict true bytes.entry.now result into.new }
{
    read(bytes, true, into)
}

/// Reads a message with any kind of PDU, like `read_message`; `NotRequest` never comes.
pub fn read_any<'a>(bytes: &'a [u8], into: &mut Places) -> Result<Message<'a>, Fault>
    ensures { IsVerdict false bytes.entry.now result into.new }
{
    read(bytes, false, into)
}
