// The pairs of hosts of a control row.
ghost use Rattle.std.specs.Prelude.{◌≡◌, ◌+◌, ◌/◌, ◌<◌, ◌≤◌, ◌^◌, List, ◌++◌};
ghost use Rattle.rm_rows.specs.Table.{keys_of};
ghost use Rattle.rm_keyed.specs.declared.keyed.TheConstants.{MOST_ROWS};
ghost use Rattle.rm_keyed.specs.Addresses.{pair_eq, reversed};
ghost use Rattle.rm_keyed.specs.Reversed.{AreFoundReversed};

use crate::by_destination::{ByDestination, DESTINATION_OBJECTS};
use crate::by_source::{BySource, SOURCE_OBJECTS};
use crate::matrix_room::MatrixRoom;
use crate::pair_counts::PairCounts;
use rm_group::TableObjects;
use rm_keyed::{AddressPair, Keyed, MOST_ROWS, SOURCE_NUMBERS, SourceTable};
use rm_order::OrderedKeys;
use rm_pool::Part;
use rm_proto::Facts;
use rm_sourced::SourceRows;
use rm_val::NoMemory;
use std::alloc::Global;
use std::marker::PhantomData;

/// The objects of matrixControl.
const CONTROL_OBJECTS: TableObjects = TableObjects {
    entry: &[1, 3, 6, 1, 2, 1, 16, 6, 1, 1],
    columns: SOURCE_NUMBERS,
};

/// The tables, the control table first.
const OBJECTS: &[TableObjects] = &[CONTROL_OBJECTS, SOURCE_OBJECTS, DESTINATION_OBJECTS];

/// The pairs of hosts that frames entered for a row of matrixControl.
#[derive(Drop)]
pub struct MatrixRows {
    /// The pairs, each a source and its destination.
    pub pairs: Keyed<AddressPair, PairCounts>,
    /// The same pairs, each a destination and its source, for the walks in that order.
    pub reverse: OrderedKeys<AddressPair>,
    // The tables that show them: who names the rows names these too.
    tables: PhantomData<(BySource, ByDestination)>,
    ghost alike: { AreFoundReversed pair_eq reversed reverse.keys (keys_of pairs.rows.rows) },
    ghost room: { MOST_ROWS ≤ reverse.room },
}

impl Part for MatrixRows {
    fn spare(alloc: Global) -> Result<MatrixRows, NoMemory> {
        let pairs = Keyed::spare(alloc)?;
        let reverse = OrderedKeys::new(alloc, MOST_ROWS as usize)?;
        Ok(MatrixRows {
            pairs,
            reverse,
            tables: PhantomData,
        })
    }
}

impl SourceTable for MatrixRows {
    ghost use Rattle.rm_matrix.specs.Control.{named_entry};

    ghost entry = { named_entry };

    fn entry() -> &'static [u32] {
        CONTROL_OBJECTS.entry
    }
}

impl SourceRows<AddressPair> for MatrixRows {
    ghost use Rattle.rm_matrix.specs.Pairs.{pair_value};
    ghost use Rattle.rm_matrix.specs.SourceDestination.{source_index};
    ghost use Rattle.rm_matrix.specs.DestinationSource.{destination_index};
    ghost use Rattle.rm_matrix.specs.Tables.{pair_sourcing};
    ghost use Rattle.rm_matrix.specs.Lawful.{matrix_laws};

    type First = BySource;

    type Second = ByDestination;

    type Room = MatrixRoom;

    type Counts = PairCounts;

    ghost sourcing = { pair_sourcing };

    ghost room_in = { λ room. room.pairs };

    ghost first_index = { source_index };

    ghost second_index = { destination_index };

    ghost value = { pair_value };

    fn begin(&mut self, room: &MatrixRoom) {
        self.pairs.begin(room.pairs);
        self.reverse.clear();
    }

    // A good frame has one reference, and leaves its second stamp out.
    fn take(&mut self, facts: &Facts, moment: u32, stamp: u64) {
        let Some(addresses) = facts.pair else {
            return;
        };
        let pair = AddressPair::new(addresses.source, addresses.dest);
        let gain = PairCounts::of(facts);
        if facts.good {
            let touch = self.pairs.refer(pair, stamp, moment / 10, &gain);
            self.reverse.follow(&pair, &touch);
        } else {
            self.pairs.stray(&pair, &gain);
        }
    }

    fn entered(&self) -> &Keyed<AddressPair, PairCounts> {
        &self.pairs
    }

    fn tables() -> &'static [TableObjects] {
        OBJECTS
    }

    ghost laws = { matrix_laws };
}
