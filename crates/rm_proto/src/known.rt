// What is known of a frame.
use crate::datagram::IpPair;
use crate::ethernet::{Cast, Pair};
use crate::ports::Ports;

/// What is known of a frame.
#[derive(Clone, Copy, Debug, PartialEq, Eq)]
pub struct Facts {
    /// The number of its interface, from 1.
    pub interface: u32,
    /// Its octets on the wire, the check sequence included.
    pub length: u32,
    /// Whether it has a tag behind its addresses, of which 14 octets at least were captured (IEEE 802.1Q).
    pub tagged: bool,
    /// Whether it has 64 to 1518 octets on the wire (RFC 1757), or to 1522 where it is tagged (IEEE 802.3).
    pub good: bool,
    /// The bits of its status: 1 where it has more octets on the wire than a good frame, 2 where it has fewer, else 0
    /// (RFC 1757, filterPktStatus).
    pub status: u8,
    /// Its addresses; None where fewer than 12 octets were captured.
    pub pair: Option<Pair>,
    /// Whom it was sent to.
    pub cast: Cast,
    /// Its type, behind the tag where it is tagged; None where it wasn't captured, and where a length below 1536 stands in
    /// its place (IEEE 802.3).
    pub ether: Option<u16>,
    /// The addresses of its datagram, where its type is 0800 and the whole header of IPv4 was captured, options
    /// included (RFC 791).
    pub ip: Option<IpPair>,
    /// The protocol of its datagram, where `ip` is there and the fragment offset is 0.
    pub proto: Option<u8>,
    /// The ports, where `proto` is that of TCP or UDP and both were captured.
    pub ports: Option<Ports>,
}
