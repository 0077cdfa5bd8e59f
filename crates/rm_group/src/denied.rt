// Want of memory for a Set.

/// There was no memory for what a Set asks.
#[derive(Clone, Copy, Debug, PartialEq, Eq)]
pub struct Denied {
    /// The number of the status binding that activates the row for which memory was wanting, from 1 in the whole Set.
    pub index: u32,
}
