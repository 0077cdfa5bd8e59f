// The ports of a header of TCP or UDP.
ghost use Rattle.std.specs.Prelude.{◌≡◌};

use byteorder::{BigEndian, ByteOrder};

/// The protocols whose ports are told (RFC 1700).
pub const TCP: u8 = 6;

pub const UDP: u8 = 17;

/// The octets of both ports.
const BOTH_PORTS: usize = 4;

/// The ports of a segment of TCP (RFC 793) or a datagram of UDP (RFC 768).
#[derive(Clone, Copy, Debug, PartialEq, Eq)]
pub struct Ports {
    /// The port of the sender.
    pub source: u16,
    /// The port of the receiver.
    pub dest: u16,
}

impl Ports {
    ghost use Rattle.rm_proto.specs.Datagram.{ports_at_front};

    /// The ports at the front of these octets; None where they have fewer than four.
    #[tactic(auto, unfolding(crate::specs::Datagram::ports_at_front))]
    pub(crate) fn at_front(segment: &[u8]) -> Option<Ports>
        ensures { result ≡ ports_at_front segment.now }
    {
        if segment.len() < BOTH_PORTS {
            return None;
        }
        Some(Ports {
            source: BigEndian::read_u16(segment),
            dest: BigEndian::read_u16(&segment[2..]),
        })
    }
}
