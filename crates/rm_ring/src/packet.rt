// A packet that a ring lends.

/// A packet that a ring lends: what is known of it, and its octets.
#[derive(Clone, Copy)]
pub struct Packet<'a, T> {
    /// What is known of it.
    pub info: T,
    /// Its octets, which stand in one piece.
    pub octets: &'a [u8],
}
