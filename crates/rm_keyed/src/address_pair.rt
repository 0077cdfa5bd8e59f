// Pairs of addresses.
ghost use Rattle.std.specs.Prelude.{◌≡◌, ◌∷◌, ◌++◌, length};
ghost use Rattle.std.proofs.Common.{rules};
ghost use Rattle.rm_keyed.specs.PairLaws.{pair_exact, pair_rises};

use crate::indexed::Indexed;
use rm_evicting::Key;
use rm_order::Reversible;
use std::cmp::Ordering;

/// Two addresses, in order of the first and then of the second: a source and its destination, or a destination and its source.
#[derive(Clone, Copy, PartialEq, Eq, PartialOrd, Ord, Debug)]
pub struct AddressPair {
    /// The first.
    pub first: [u8; 6],
    /// The second.
    pub second: [u8; 6],
    ghost first_six: { length first ≡ 6 },
    ghost second_six: { length second ≡ 6 },
}

impl AddressPair {
    ghost use Rattle.rm_keyed.specs.Addresses.{address_pair};

    /// A pair of these addresses.
    pub fn new(first: [u8; 6], second: [u8; 6]) -> AddressPair
        ensures { result ≡ address_pair first second }
    {
        AddressPair { first, second }
    }
}

impl Key for AddressPair {
    fn compare(&self, other: &AddressPair) -> Ordering {
        match self.first.compare(&other.first) {
            Ordering::Equal => self.second.compare(&other.second),
            order => order,
        }
    }

    ghost exact = { λ a b same. pair_exact (λ first second first_six second_six. record { first = first; second = second; first_six = first_six; second_six = second_six }) a.first b.first a.second b.second a.first_six b.first_six a.second_six b.second_six same };
}

/// The second address first.
impl Reversible for AddressPair {
    ghost use Rattle.std.specs.Prelude.{refl};
    ghost use Rattle.rm_keyed.specs.Addresses.{reversed};

    ghost reversing = { reversed };

    fn reversed(&self) -> AddressPair {
        AddressPair {
            first: self.second,
            second: self.first,
        }
    }

    ghost twice = { λ pair. refl };
}

/// The first address, counted, and then the second.
impl Indexed for AddressPair {
    ghost index = { λ pair. (6 ∷ pair.first) ++ (6 ∷ pair.second) };

    ghost width = { 14 };

    fn len(&self) -> usize {
        14
    }

    fn number(&self, place: usize) -> u32 {
        if place < 7 {
            self.first.number(place)
        } else {
            self.second.number(place - 7)
        }
    }

    ghost rises = { λ one other less. pair_rises one.first other.first one.second other.second one.first_six other.first_six less };

    ghost short = { Prim.search rules };
}
