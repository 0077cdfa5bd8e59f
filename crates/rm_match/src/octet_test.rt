// The test of one octet.
ghost use Rattle.std.specs.Prelude.{◌≡◌, bit_and};
ghost use Rattle.rm_acts.specs.Bits.{equals, asks_difference, differs};
ghost use Rattle.rm_match.specs.Tests.{bits_of};

/// What one octet is tested by: the octet that is wanted, which of its bits count, and which of these may differ.
#[derive(Clone, Copy)]
pub(crate) struct OctetTest {
    pub wanted: u8,
    pub mask: u8,
    pub not_mask: u8,
}

impl OctetTest {
    // Of the bits that count, those of which one has to differ.
    fn other_bits(self) -> u8
        ensures { result ≡ bit_and self.mask self.not_mask }
    {
        self.mask & self.not_mask
    }

    /// Whether the octet has the wanted bits where it has to.
    pub fn equals(self, octet: u8) -> bool
        ensures { result ≡ equals (bits_of self) octet }
    {
        (octet ^ self.wanted) & (self.mask ^ self.other_bits()) == 0
    }

    /// Whether there are bits of which one has to differ.
    pub fn asks_difference(self) -> bool
        ensures { result ≡ asks_difference (bits_of self) }
    {
        self.other_bits() != 0
    }

    /// Whether one of these differs in the octet.
    pub fn differs(self, octet: u8) -> bool
        ensures { result ≡ differs (bits_of self) octet }
    {
        (octet ^ self.wanted) & self.other_bits() != 0
    }
}
