// The header of an Ethernet frame.
ghost use Rattle.std.specs.Prelude.{◌≡◌, ◌+◌};
ghost use Rattle.rm_proto.specs.Ethernet.{is_broadcast, is_group, is_tagged, type_at, ethernet_type};

use byteorder::{BigEndian, ByteOrder};

/// The octets of both addresses.
const BOTH_ADDRESSES: usize = 12;

/// The octets of the type.
const TYPE: usize = 2;

/// The octets of a tag: its number, which stands in the place of the type, and its control information (IEEE 802.1Q).
const TAG: usize = 4;

/// The number of a tag (IEEE 802.1Q).
const TAG_NUMBER: u16 = 0x8100;

/// The least number after the addresses that is a type; a lower one is a length (IEEE 802.3).
const LEAST_TYPE: u16 = 1536;

/// The addresses of a frame, the octets in the order of the wire (IEEE 802.3).
#[derive(Clone, Copy, Debug, PartialEq, Eq)]
pub struct Pair {
    /// The address of the sender.
    pub source: [u8; 6],
    /// The address of the receiver, or of a group of them.
    pub dest: [u8; 6],
}

impl Pair {
    ghost use Rattle.rm_proto.specs.Ethernet.{pair_of};

    /// The addresses at the front of a frame; None where it has fewer than 12 octets.
    #[tactic(auto, unfolding(crate::specs::Ethernet::pair_of))]
    pub(crate) fn at_front(bytes: &[u8]) -> Option<Pair>
        ensures { result ≡ pair_of bytes.now }
    {
        let (dest, rest) = bytes.split_first_chunk()?;
        let source = rest.first_chunk()?;
        Some(Pair {
            source: *source,
            dest: *dest,
        })
    }
}

/// Whom a frame was sent to.
#[derive(Clone, Copy, Debug, PartialEq, Eq)]
pub enum Cast {
    /// The broadcast address, six octets ff.
    Broad,
    /// Any other address whose first octet is odd.
    Multi,
    /// Any other address, also where fewer than 12 octets were captured.
    Uni,
}

impl Cast {
    ghost use Rattle.rm_proto.specs.Ethernet.{cast_of};

    /// Whom a frame with these addresses was sent to.
    pub(crate) fn of(pair: Option<Pair>) -> Cast
        ensures { result ≡ cast_of pair }
    {
        match pair {
            Some(pair) if is_broadcast(pair.dest) => Cast::Broad,
            Some(pair) if is_group(pair.dest) => Cast::Multi,
            _ => Cast::Uni,
        }
    }
}

#[tactic(auto, unfolding(crate::specs::Ethernet::is_broadcast))]
fn is_broadcast(address: [u8; 6]) -> bool
    ensures { result ≡ is_broadcast address }
{
    address == [0xff; 6]
}

// Whether the address is one of a group: the first bit on the wire is set, the lowest of the first octet.
#[tactic(auto, unfolding(crate::specs::Ethernet::is_group))]
fn is_group(address: [u8; 6]) -> bool
    ensures { result ≡ is_group address }
{
    address[0] & 1 == 1
}

/// Whether the frame has a tag behind its addresses. False where it has fewer than 14 octets.
#[tactic(auto, unfolding(crate::specs::Ethernet::is_tagged))]
pub fn is_tagged(bytes: &[u8]) -> bool
    ensures { result ≡ is_tagged bytes.now }
{
    bytes.len() >= BOTH_ADDRESSES + TYPE
        && BigEndian::read_u16(&bytes[BOTH_ADDRESSES..]) == TAG_NUMBER
}

/// Where the type stands: behind the addresses, and behind the tag of a frame that is tagged.
fn type_at(tagged: bool) -> usize
    ensures { result ≡ type_at tagged }
{
    if tagged {
        BOTH_ADDRESSES + TAG
    } else {
        BOTH_ADDRESSES
    }
}

/// Where what follows the type stands.
pub fn payload_at(tagged: bool) -> usize
    ensures { result ≡ type_at tagged + 2 }
{
    type_at(tagged) + TYPE
}

/// The type of the frame; None where it has no octets there, and where a length stands in place of the type.
#[tactic(auto, unfolding(crate::specs::Ethernet::ethernet_type))]
pub fn ethernet_type(bytes: &[u8], tagged: bool) -> Option<u16>
    requires { tagged ≡ is_tagged bytes.now }
    ensures { result ≡ ethernet_type bytes.now }
{
    if bytes.len() < payload_at(tagged) {
        return None;
    }
    let number = BigEndian::read_u16(&bytes[type_at(tagged)..]);
    (number >= LEAST_TYPE).then_some(number)
}
