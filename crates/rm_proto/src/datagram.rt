// The header of an IPv4 datagram.
ghost use Rattle.std.specs.Prelude.{◌≡◌, true, Some, None, if◌then◌else◌};
ghost use Rattle.std.specs.Option.{option_map};
ghost use Rattle.rm_proto.specs.Datagram.{has_header, header_length, addresses_of, fragment_offset, protocol_of, ports_of};

use crate::field::octets_at;
use crate::ports::{Ports, TCP, UDP};
use byteorder::{BigEndian, ByteOrder};

/// The version of IPv4 (RFC 791).
const VERSION: u8 = 4;

/// The octets of a word of the header.
const WORD: usize = 4;

/// The octets of a header without options.
const LEAST_HEADER: usize = 20;

/// The bits of the fragment offset, below the three flags.
const FRAGMENT_OFFSET: u16 = 0x1fff;

/// The addresses of an IPv4 datagram, the octets in network order (RFC 791).
#[derive(Clone, Copy, Debug, PartialEq, Eq)]
pub struct IpPair {
    /// The address of the sender.
    pub source: [u8; 4],
    /// The address of the receiver.
    pub dest: [u8; 4],
}

/// An IPv4 datagram with a whole header.
#[derive(Clone, Copy)]
pub struct Datagram<'a> {
    octets: &'a [u8],
    // How many octets the header has: the data stands behind it.
    data_at: usize,
    ghost whole: { has_header octets.now ≡ true },
    ghost exact: { data_at ≡ header_length octets.now },
}

impl<'a> Datagram<'a> {
    /// The datagram at the front of these octets; None where no header of version 4 stands whole there.
    #[tactic(auto, unfolding(crate::specs::Datagram::version, crate::specs::Datagram::header_words))]
    pub fn at_front(octets: &'a [u8]) -> Option<Datagram<'a>>
        ensures { option_map (λ d. d.octets.now) result ≡ (if has_header octets.entry.now then Some octets.entry.now else None) }
    {
        let first = *octets.first()?;
        let header_length = usize::from(first & 0x0f) * WORD;
        if first >> 4 != VERSION || header_length < LEAST_HEADER || octets.len() < header_length {
            return None;
        }
        Some(Datagram {
            octets,
            data_at: header_length,
        })
    }

    /// Its source and its destination.
    #[tactic(auto, unfolding(crate::specs::Datagram::addresses_of))]
    pub fn addresses(&self) -> IpPair
        ensures { result ≡ addresses_of self.now.octets.now }
    {
        IpPair {
            source: octets_at(self.octets, 12),
            dest: octets_at(self.octets, 16),
        }
    }

    #[tactic(auto, unfolding(crate::specs::Datagram::fragment_offset))]
    fn fragment_offset(&self) -> u16
        ensures { result ≡ fragment_offset self.now.octets.now }
    {
        BigEndian::read_u16(&self.octets[6..]) & FRAGMENT_OFFSET
    }

    /// Its protocol; None in a later fragment, whose data doesn't begin with the protocol's header.
    #[tactic(auto, unfolding(crate::specs::Datagram::protocol_of))]
    pub fn protocol(&self) -> Option<u8>
        ensures { result ≡ protocol_of self.now.octets.now }
    {
        if self.fragment_offset() != 0 {
            return None;
        }
        Some(self.octets[9])
    }

    /// Its ports, where it is of TCP or UDP and has both.
    #[tactic(auto, unfolding(crate::specs::Datagram::ports_of))]
    pub fn ports(&self) -> Option<Ports>
        ensures { result ≡ ports_of self.now.octets.now }
    {
        match self.protocol()? {
            TCP | UDP => Ports::at_front(&self.octets[self.data_at..]),
            _ => None,
        }
    }
}
