// The test of a packet's status.
ghost use Rattle.std.specs.Prelude.{◌≡◌, ◌%◌, [], ◌∷◌};
ghost use Rattle.rm_acts.specs.Bits.{pass};
ghost use Rattle.rm_match.specs.Tests.{status_bits};

use crate::octet_test::OctetTest;

/// The bits of a status that count: too long, too short, and in error (RFC 1757, filterPktStatus).
const STATUS_BITS: u32 = 7;

/// What a filter wants of the status of a packet: filterPktStatus, filterPktStatusMask and filterPktStatusNotMask (RFC 1757,
/// section 5). Of each number its three lowest bits count.
#[derive(Clone, Copy)]
pub struct StatusTest {
    /// The status that is wanted.
    pub status: u32,
    /// Which of its bits count.
    pub mask: u32,
    /// Of these bits, those of which one has to differ; all others have to be equal.
    pub not_mask: u32,
}

impl StatusTest {
    /// Whether the status of a packet passes.
    pub fn passes(&self, status: u8) -> bool
        ensures { result ≡ pass (status_bits self.now ∷ []) (status ∷ []) }
    {
        let test = OctetTest {
            wanted: lowest_bits(self.status),
            mask: lowest_bits(self.mask),
            not_mask: lowest_bits(self.not_mask),
        };
        test.equals(status) && (!test.asks_difference() || test.differs(status))
    }
}

// The bits of a number that count in a status.
fn lowest_bits(number: u32) -> u8
    ensures { result ≡ number % 8 }
{
    (number & STATUS_BITS) as u8
}
