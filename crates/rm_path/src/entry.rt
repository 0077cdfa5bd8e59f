// Entries of the index of protocols by their numbers.

/// The slot of a protocol, by the number of it.
#[derive(Clone, Copy, Debug, Default, PartialEq, Eq)]
pub(crate) struct Entry {
    /// The number of the protocol.
    pub number: u32,
    /// Its slot.
    pub slot: u8,
}
