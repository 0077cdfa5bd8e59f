// The pairs of hosts of a row, as storage of a pool.
use rm_layer_matrices::{AddressPair, PairCounts};
use rm_layer_tables::TwoOrders;
use rm_pool::Part;
use rm_val::NoMemory;
use std::alloc::Global;

/// Pairs of addresses, which are shown by source and destination, and by destination and source.
pub(crate) type PairTable = TwoOrders<AddressPair<[u8; 4]>, PairCounts>;

/// The pairs of hosts that a row of hlMatrixControl has, in a part of a pool: storage for as many as any row has room for, and for their keys
/// in the second order. It is taken as the Set that makes the row active is made ready for, so that neither a frame nor the doing of a Set
/// asks for memory.
#[derive(Drop)]
pub struct PairPart {
    /// The interface whose frames it takes.
    pub(crate) source: u32,
    /// The pairs, each a source and its destination.
    pub(crate) pairs: PairTable,
}

impl Part for PairPart {
    fn spare(alloc: Global) -> Result<Self, NoMemory> {
        let pairs = TwoOrders::spare(alloc)?;
        Ok(PairPart { source: 0, pairs })
    }
}
