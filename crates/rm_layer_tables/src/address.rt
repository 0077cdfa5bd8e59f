// Addresses in indexes.
ghost use Rattle.std.specs.Prelude.{◌≡◌, ◌+◌, ◌<◌, ◌≤◌, ◌∷◌, [], true, length, drop, take, nat_lt, if◌then◌else◌, Some, None};
ghost use Rattle.rm_layer_tables.specs.Indexes.{is_address, address_of};

use crate::layer_key::LayerKey;
use rm_val::Oid;
use rm_walk_places::Bounds;

/// The local index of ip.
pub(crate) const IP_LOCAL: u32 = 2;

/// How many octets an address has, as the count before them says.
const ADDRESS_OCTETS: u32 = 4;

/// How many numbers an address has in an index.
pub(crate) const ADDRESS_NUMBERS: usize = 5;

/// The bounds of the local index of ip: just that.
pub(crate) const IP: Bounds = Bounds {
    least: IP_LOCAL,
    greatest: IP_LOCAL,
};

/// The bounds of the count of octets of an address: just 4.
pub(crate) const COUNT: Bounds = Bounds {
    least: ADDRESS_OCTETS,
    greatest: ADDRESS_OCTETS,
};

/// The bounds of an octet.
pub(crate) const OCTET: Bounds = Bounds {
    least: 0,
    greatest: 255,
};

impl LayerKey for [u8; 4] {
    ghost use Rattle.rm_layer_tables.specs.Addresses.{address_form};
    ghost use Rattle.rm_layer_tables.specs.AddressLaws.{address_numbered};

    ghost form = { address_form };

    fn count() -> usize {
        ADDRESS_NUMBERS
    }

    fn bounds() -> &'static [Bounds] {
        &[IP, COUNT, OCTET, OCTET, OCTET, OCTET]
    }

    fn put(&self, index: &mut Oid) {
        index.put_counted(self).unwrap();
    }

    fn at(index: &Oid, from: usize) -> Option<[u8; 4]> {
        address_at(index, from)
    }

    fn is_named(&self) {
        are_octets(self);
    }

    ghost numbered = { address_numbered };
}

/// The address whose numbers stand in an index from a place on: the count of its octets, and these. None where they are none's.
pub(crate) fn address_at(index: &Oid, from: usize) -> Option<[u8; 4]>
    requires { from + 5 ≤ length index.now }
    ensures { result ≡ address_of (take 5 (drop from index.now)) }
{
    // An index has 128 numbers at most.
    let _room = index.len();
    if index.at(from) != ADDRESS_OCTETS {
        return None;
    }
    let first = index.at(from + 1);
    let second = index.at(from + 2);
    let third = index.at(from + 3);
    address(first, second, third, index.at(from + 4))
}

/// A law: four octets are an address. It does nothing.
pub(crate) fn are_octets(address: &[u8])
    requires { length address.now ≡ 4 }
    ensures { is_address address.now ≡ true }
{
    let _first = address[0];
}

// An address of four octets. None where one of them is above 255.
fn address(a: u32, b: u32, c: u32, d: u32) -> Option<[u8; 4]>
    ensures { result ≡ (if is_address (a ∷ b ∷ c ∷ d ∷ []) then Some (a ∷ b ∷ c ∷ d ∷ []) else None) }
{
    Some([octet(a)?, octet(b)?, octet(c)?, octet(d)?])
}

// A number as an octet. None where it is above 255.
fn octet(number: u32) -> Option<u8>
    ensures { result ≡ (if nat_lt number 256 then Some number else None) }
{
    u8::try_from(number).ok()
}
