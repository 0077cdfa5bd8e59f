// A part of the storage of a pool.
use rm_val::NoMemory;
use std::alloc::Global;

/// What a pool keeps of a row: all the storage that any row needs, so that a part that is spare serves every row.
pub trait Part: Drop {
    /// A part that is spare. NoMemory where there is none for it.
    fn spare(alloc: Global) -> Result<Self, NoMemory>;
}
