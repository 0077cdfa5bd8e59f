// How much is counted at most.

/// The most octets that a frame has on the wire, its check sequence included.
pub const MOST_OCTETS: u32 = 262_148;

/// How many frames are counted at most.
pub const MOST_FRAMES: u32 = 400_000_000;
