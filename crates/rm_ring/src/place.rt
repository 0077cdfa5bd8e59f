// Where a packet stands in a ring.

/// Where a packet stands in a ring, and what is known of it.
#[derive(Clone, Copy)]
pub struct Place<T> {
    pub info: T,
    /// Where its first octet stands.
    pub start: usize,
    /// How many octets it has.
    pub size: usize,
}
