// The numbers of a capture, in either octet order.
ghost use Rattle.std.specs.Prelude.{◌≡◌, ◌≤◌, ◌+◌, length};
ghost use Rattle.rm_pcap.specs.Header.{number_at};

use crate::form::Order;
use byteorder::{BigEndian, ByteOrder, LittleEndian};

// The number in two octets from a place on.
#[tactic(auto, unfolding(crate::specs::Header::number_at))]
pub fn short_at(order: Order, bytes: &[u8], at: usize) -> u16
    requires { at + 2 ≤ length bytes.now }
    ensures { result ≡ number_at order 2 at bytes.now }
{
    match order {
        Order::HighestFirst => BigEndian::read_u16(&bytes[at..]),
        Order::LowestFirst => LittleEndian::read_u16(&bytes[at..]),
    }
}

// The number in four octets from a place on.
#[tactic(auto, unfolding(crate::specs::Header::number_at))]
pub fn long_at(order: Order, bytes: &[u8], at: usize) -> u32
    requires { at + 4 ≤ length bytes.now }
    ensures { result ≡ number_at order 4 at bytes.now }
{
    match order {
        Order::HighestFirst => BigEndian::read_u32(&bytes[at..]),
        Order::LowestFirst => LittleEndian::read_u32(&bytes[at..]),
    }
}
