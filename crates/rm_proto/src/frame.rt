// The facts of a frame, from its octets.
ghost use Rattle.std.specs.Prelude.{◌≡◌, ◌≤◌, length};
ghost use Rattle.std.specs.Option.{option_map};
ghost use Rattle.rm_proto.specs.Facts.{datagram_in, facts_of};
ghost use Rattle.rm_proto.specs.Ethernet.{is_tagged, ethernet_type};

use crate::datagram::Datagram;
use crate::ethernet::{self, Cast, Pair};
use crate::known::Facts;
use crate::wire;

/// The interface for which facts are told: which one a frame came from, its octets don't say.
const INTERFACE: u32 = 1;

/// The type of IP (RFC 894).
const IP: u16 = 0x0800;

// The datagram of a frame with that type, whether it is tagged or not.
#[tactic(auto, unfolding(crate::specs::Facts::datagram_in, crate::specs::Ethernet::ethernet_type))]
fn datagram_in(bytes: &[u8], tagged: bool, ether: Option<u16>) -> Option<Datagram<'_>>
    requires tagged { tagged ≡ is_tagged bytes.now }
    requires ether { ether ≡ ethernet_type bytes.now }
    ensures { option_map (λ d. d.octets.now) result ≡ datagram_in bytes.entry.now }
{
    let (_, payload) = bytes.split_at_checked(ethernet::payload_at(tagged))?;
    match ether {
        Some(IP) => Datagram::at_front(payload),
        _ => None,
    }
}

/// The facts of the frame with these captured octets, which had `original` octets in all, captured or not, without
/// its check sequence, for interface 1. A frame of fewer than 60 is taken as padded to 60 on the wire, unless `keep_short`
/// is set. A tag is skipped, the first one alone.
pub fn facts(bytes: &[u8], original: u32, keep_short: bool) -> Facts
    requires captured { length bytes.now ≤ original }
    requires original { original ≤ 262144 }
    ensures { result ≡ facts_of bytes.now original keep_short }
{
    let length = wire::length(original, keep_short);
    let pair = Pair::at_front(bytes);
    let tagged = ethernet::is_tagged(bytes);
    let ether = ethernet::ethernet_type(bytes, tagged);
    let datagram = datagram_in(bytes, tagged, ether);
    Facts {
        interface: INTERFACE,
        length,
        tagged,
        good: wire::is_good(tagged, length),
        status: wire::status(tagged, length),
        pair,
        cast: Cast::of(pair),
        ether,
        ip: datagram.map(|datagram| datagram.addresses()),
        proto: datagram.and_then(|datagram| datagram.protocol()),
        ports: datagram.and_then(|datagram| datagram.ports()),
    }
}
