// The order of octets, by the numbers that they are.

ghost use Rattle.std.specs.Prelude.{◌≡◌, ℕ, ◌<◌, ◌≤◌, length, slice_index};
ghost use Rattle.std.specs.Ordering.{nat_cmp};
ghost use Rattle.std.specs.Cmp.Lexicographic.{slice_cmp};
ghost use Rattle.rm_evicting.specs.Octets.{with_octets, number_of as number_in};

use byteorder::{BigEndian, ByteOrder};
use std::cmp::Ordering;

// What a number becomes where a few octets are put behind it.
fn with_octets(front: u32, octets: &[u8]) -> u64
    requires { length octets.now ≤ 4 }
    ensures { result ≡ with_octets front octets.now }
{
    let mut number = u64::from(front);
    for octet in octets {
        number = number * 256 + u64::from(*octet);
    }
    number
}

// The number that a few octets are, the first one highest. The first four of them are read at once.
fn number_of(octets: &[u8]) -> u64
    requires { length octets.now ≤ 8 }
    ensures value { result ≡ number_in octets.now }
    ensures octets { (place : ℕ) → slice_index octets.now place < 256 }
{
    if octets.len() < 4 {
        with_octets(0, octets)
    } else {
        with_octets(BigEndian::read_u32(octets), &octets[4..])
    }
}

/// The order of octets, of which there are as many on both sides. It is told at once where they are no more than those of a u64.
pub(crate) fn compare_octets(octets: &[u8], others: &[u8]) -> Ordering
    requires { length octets.now ≡ length others.now }
    ensures { result ≡ slice_cmp nat_cmp octets.now others.now }
{
    if octets.len() <= 8 {
        number_of(octets).cmp(&number_of(others))
    } else {
        octets.cmp(others)
    }
}
