// The length of a frame on the wire.
ghost use Rattle.std.specs.Prelude.{◌≡◌, ◌≤◌};
ghost use Rattle.rm_proto.specs.Ethernet.{length_of, most_of, is_good, status_of};

/// The least octets of a frame without its check sequence; a shorter one was padded on the wire (IEEE 802.3).
const LEAST_UNCHECKED: u32 = 60;

/// The octets of the check sequence, which a capture doesn't have.
const CHECK_SEQUENCE: u32 = 4;

/// The least octets of a good packet on the wire, and the most (RFC 1757).
const LEAST_LENGTH: u32 = 64;

const MOST_LENGTH: u32 = 1518;

/// The most of one that is tagged (IEEE 802.3, Q-tagged frames).
const MOST_TAGGED: u32 = 1522;

/// The bit of a packet's status where it is longer than a good one, and where it is shorter (RFC 1757,
/// filterPktStatus).
const OVERSIZE: u8 = 1;

const UNDERSIZE: u8 = 2;

/// The octets of a frame on the wire, by their number without the check sequence. A frame of fewer than 60 is taken as
/// padded to 60, unless short frames are kept.
pub fn length(original: u32, keep_short: bool) -> u32
    requires { original ≤ 262144 }
    ensures { result ≡ length_of original keep_short }
{
    let unchecked = if keep_short {
        original
    } else {
        original.max(LEAST_UNCHECKED)
    };
    unchecked + CHECK_SEQUENCE
}

/// The most octets of a good packet on the wire.
fn most(tagged: bool) -> u32
    ensures { result ≡ most_of tagged }
{
    if tagged { MOST_TAGGED } else { MOST_LENGTH }
}

/// Whether a frame of that length on the wire is a good packet.
pub fn is_good(tagged: bool, length: u32) -> bool
    ensures { result ≡ is_good tagged length }
{
    (LEAST_LENGTH..=most(tagged)).contains(&length)
}

/// The status of a frame of that length on the wire: 1 above the lengths of good packets, 2 below them, else 0.
pub fn status(tagged: bool, length: u32) -> u8
    ensures { result ≡ status_of tagged length }
{
    if length > most(tagged) {
        OVERSIZE
    } else if length < LEAST_LENGTH {
        UNDERSIZE
    } else {
        0
    }
}
