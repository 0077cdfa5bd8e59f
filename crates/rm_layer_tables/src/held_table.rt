// The rows of the network and application layer that a control row has, in storage of its own.
ghost use Rattle.std.specs.Prelude.{◌≡◌, [], IfOk};
ghost use Rattle.rm_layers.specs.Applications.{AreApart};
ghost use Rattle.rm_upper.specs.Shown.{protocols};
ghost use Rattle.rm_layer_tables.specs.Apart.{apart_prop};

use rm_evicting::Key;
use rm_upper::{LayerCounts, LayerTable};
use rm_val::NoMemory;
use std::alloc::Global;

/// How many network rows a control row has room for at most, whatever the probe was set to.
pub(crate) const MOST_ROWS: usize = 1024;

/// The rows of the network and application layer that a control row has, and the slots of the protocols above ip that are on: storage for as
/// many rows as any control row has room for.
#[derive(Drop)]
pub struct HeldTable<K: Key, N: LayerCounts> {
    /// The rows.
    pub table: LayerTable<K, N>,
    /// The local indexes of the protocols above ip that are on, each in the slot that its rows have.
    pub slots: [Option<u32>; 32],
    ghost room: { table.layered.table.room ≡ 1024 },
    ghost tuned: { protocols table.layered.slots ≡ slots },
    ghost apart: { AreApart slots } by { apart_prop slots },
}

impl<K: Key, N: LayerCounts> HeldTable<K, N> {
    /// No rows, with storage for 1024 network rows. NoMemory where there is none.
    pub fn spare(alloc: Global) -> Result<HeldTable<K, N>, NoMemory>
        ensures { IfOk result (λ held. held.table.layered.table.rows ≡ []) }
    {
        let table = LayerTable::new(alloc, MOST_ROWS)?;
        Ok(HeldTable {
            table,
            slots: [None; 32],
        })
    }
}
