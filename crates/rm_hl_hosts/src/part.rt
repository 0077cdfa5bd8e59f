// The hosts of a row, as storage of a pool.
use rm_layer_hosts::NetworkCounts;
use rm_layer_tables::HeldTable;
use rm_pool::Part;
use rm_val::NoMemory;
use std::alloc::Global;

/// The hosts that a row of hlHostControl has, in a part of a pool: storage for as many as any row has room for. It is taken as the Set that
/// makes the row active is made ready for, so that neither a frame nor the doing of a Set asks for memory.
#[derive(Drop)]
pub struct HostPart {
    /// The interface whose frames it takes.
    pub(crate) source: u32,
    /// The hosts, by their addresses.
    pub(crate) hosts: HeldTable<[u8; 4], NetworkCounts>,
}

impl Part for HostPart {
    fn spare(alloc: Global) -> Result<Self, NoMemory> {
        let hosts = HeldTable::spare(alloc)?;
        Ok(HostPart { source: 0, hosts })
    }
}
