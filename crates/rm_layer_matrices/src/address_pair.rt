// Pairs of addresses.

use rm_evicting::Key;
use rm_order::Reversible;
use std::cmp::Ordering;

/// Two addresses, in order of the first and then of the second: a source and its destination, or a destination and its source.
#[derive(Clone, Copy, PartialEq, Eq, PartialOrd, Ord, Debug)]
pub struct AddressPair<A> {
    /// The first.
    pub first: A,
    /// The second.
    pub second: A,
}

impl<A: Key> Key for AddressPair<A> {
    ghost use Rattle.rm_layer_matrices.specs.PairLaws.{exact_pair};

    fn compare(&self, other: &AddressPair<A>) -> Ordering {
        match self.first.compare(&other.first) {
            Ordering::Equal => self.second.compare(&other.second),
            order => order,
        }
    }

    ghost exact = { exact_pair A.cmp A.exact };
}

impl<A: Key> Reversible for AddressPair<A> {
    ghost use Rattle.std.proofs.Common.{refl};
    ghost use Rattle.rm_layer_matrices.specs.AddressPairs.{reversed};

    ghost reversing = { reversed };

    /// The same addresses, the second first.
    fn reversed(&self) -> AddressPair<A> {
        AddressPair {
            first: self.second,
            second: self.first,
        }
    }

    ghost twice = { λ pair. refl };
}
