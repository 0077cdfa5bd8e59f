// The test of a packet's octets.
ghost use Rattle.std.specs.Prelude.{◌≡◌, ◌<◌, drop};
ghost use Rattle.rm_acts.specs.Bits.{test_of, pass, first_or};
ghost use Rattle.rm_match.specs.Tests.{bits_of, bits_at};

use crate::octet_test::OctetTest;

/// What a filter wants of the octets of a packet: filterPktDataOffset, filterPktData, filterPktDataMask and
/// filterPktDataNotMask (RFC 1757, section 5).
///
/// A mask that is shorter than the data goes on with ones, a not-mask with zeros, and what is longer is cut.
#[derive(Clone, Copy)]
pub struct PacketTest<'a> {
    /// How many octets of the packet stand before those that are tested.
    pub offset: u32,
    /// The octets that are wanted.
    pub data: &'a [u8],
    /// Which of their bits count.
    pub mask: &'a [u8],
    /// Of these bits, those of which one has to differ; all others have to be equal.
    pub not_mask: &'a [u8],
}

impl PacketTest<'_> {
    /// Whether the octets of a packet pass. Where fewer stand behind the offset than are wanted, they don't, and where none
    /// is wanted they do.
    pub fn passes(&self, octets: &[u8]) -> bool
        ensures { result ≡ pass (test_of self.now.data.now self.now.mask.now self.now.not_mask.now) (drop self.now.offset octets.now) }
    {
        match octets.get(self.offset as usize..) {
            Some(tested) => self.pass_all(tested),
            None => self.data.is_empty(),
        }
    }

    // Whether octets pass that stand behind the offset.
    fn pass_all(&self, octets: &[u8]) -> bool
        ensures { result ≡ pass (test_of self.now.data.now self.now.mask.now self.now.not_mask.now) octets.now }
    {
        if octets.len() < self.data.len() {
            return false;
        }
        let mut asks_difference = false;
        let mut differs = false;
        for (at, wanted) in self.data.iter().enumerate() {
            let test = self.test_at(at, *wanted);
            if !test.equals(octets[at]) {
                return false;
            }
            asks_difference |= test.asks_difference();
            differs |= test.differs(octets[at]);
        }
        !asks_difference || differs
    }

    // The test of the octet at a place, of which that octet is wanted.
    fn test_at(&self, at: usize, wanted: u8) -> OctetTest
        ensures { bits_of result ≡ bits_at wanted (drop at self.now.mask.now) (drop at self.now.not_mask.now) }
    {
        OctetTest {
            wanted,
            mask: octet_or(self.mask, at, 0xff),
            not_mask: octet_or(self.not_mask, at, 0),
        }
    }
}

// The octet at a place, or another one behind the last.
fn octet_or(octets: &[u8], at: usize, other: u8) -> u8
    ensures { result ≡ first_or other (drop at octets.now) }
{
    match octets.get(at) {
        Some(octet) => *octet,
        None => other,
    }
}
