// A part and the row that it is of.

/// A part of a pool.
#[derive(Drop)]
pub struct Slot<P> {
    /// The index of the row that it is of. None where it is spare.
    pub row: Option<u32>,
    /// The part.
    pub part: P,
}
