// The figures of a summary.
ghost use Rattle.std.specs.Prelude.{◌≡◌, ◌≤◌, length};
ghost use Rattle.rm_summary.specs.Text.{word_of};

/// A figure of a summary.
#[derive(Clone, Copy, Debug, PartialEq, Eq)]
pub enum Figure {
    /// How many frames there are.
    Frames,
    /// The octets of all frames on the wire.
    Octets,
    /// How many frames are good.
    Good,
    /// How many have fewer octets on the wire than a good one.
    Undersize,
    /// How many have more octets on the wire than a good one.
    Oversize,
    /// How many good ones were sent to the broadcast address.
    Broadcast,
    /// How many good ones were sent to the address of a group.
    Multicast,
    /// How many have a datagram of IPv4.
    Ip,
    /// The moment of the first frame, in milliseconds.
    First,
    /// The moment of the last frame, in milliseconds.
    Last,
}

/// All figures, in the order of their lines.
pub const FIGURES: [Figure; 10] = [
    Figure::Frames,
    Figure::Octets,
    Figure::Good,
    Figure::Undersize,
    Figure::Oversize,
    Figure::Broadcast,
    Figure::Multicast,
    Figure::Ip,
    Figure::First,
    Figure::Last,
];

impl Figure {
    /// The word of its line.
    pub fn word(self) -> &'static [u8]
        ensures is { result.now ≡ word_of self }
        ensures short { length result.now ≤ 9 }
    {
        match self {
            Figure::Frames => b"frames",
            Figure::Octets => b"octets",
            Figure::Good => b"good",
            Figure::Undersize => b"undersize",
            Figure::Oversize => b"oversize",
            Figure::Broadcast => b"broadcast",
            Figure::Multicast => b"multicast",
            Figure::Ip => b"ip",
            Figure::First => b"first",
            Figure::Last => b"last",
        }
    }
}
