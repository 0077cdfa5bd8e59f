// Pairs of addresses in indexes.
use crate::address::{ADDRESS_NUMBERS, COUNT, IP, OCTET, address_at, are_octets};
use crate::layer_key::LayerKey;
use rm_layer_matrices::AddressPair;
use rm_val::Oid;
use rm_walk_places::Bounds;

impl LayerKey for AddressPair<[u8; 4]> {
    ghost use Rattle.rm_layer_tables.specs.Addresses.{pair_form};
    ghost use Rattle.rm_layer_tables.specs.AddressLaws.{pair_numbered};

    ghost form = { pair_form };

    fn count() -> usize {
        2 * ADDRESS_NUMBERS
    }

    fn bounds() -> &'static [Bounds] {
        &[
            IP, COUNT, OCTET, OCTET, OCTET, OCTET, COUNT, OCTET, OCTET, OCTET, OCTET,
        ]
    }

    fn put(&self, index: &mut Oid) {
        index.put_counted(&self.first).unwrap();
        index.put_counted(&self.second).unwrap();
    }

    fn at(index: &Oid, from: usize) -> Option<AddressPair<[u8; 4]>> {
        // An index has 128 numbers at most.
        let _room = index.len();
        let first = address_at(index, from)?;
        let second = address_at(index, from + ADDRESS_NUMBERS)?;
        Some(AddressPair { first, second })
    }

    fn is_named(&self) {
        are_octets(&self.first);
        are_octets(&self.second);
    }

    ghost numbered = { pair_numbered };
}
