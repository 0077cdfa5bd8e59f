// How the tables of pairs show them, in either order.
ghost use Rattle.std.specs.Prelude.{◌≡◌};
ghost use Rattle.rm_hl_matrices.specs.Columns.{network_count, application_count};
ghost use Rattle.rm_hl_matrices.specs.Pairs.{nl_matrix_sd, nl_matrix_ds, al_matrix_sd, al_matrix_ds};

use crate::part::{PairPart, PairTable};
use rm_group::TableObjects;
use rm_layer_matrices::{AddressPair, PairCounts};
use rm_layer_tables::{HeldTable, LayerView, MarkedObjects};

/// nlMatrixSDTable (RFC 2021, section 6).
pub(crate) const NL_MATRIX_SD: TableObjects = TableObjects {
    entry: &[1, 3, 6, 1, 2, 1, 16, 15, 2, 1],
    columns: NETWORK_COLUMNS,
};

/// nlMatrixDSTable.
pub(crate) const NL_MATRIX_DS: TableObjects = TableObjects {
    entry: &[1, 3, 6, 1, 2, 1, 16, 15, 3, 1],
    columns: NETWORK_COLUMNS,
};

/// alMatrixSDTable.
pub(crate) const AL_MATRIX_SD: TableObjects = TableObjects {
    entry: &[1, 3, 6, 1, 2, 1, 16, 17, 1, 1],
    columns: APPLICATION_COLUMNS,
};

/// alMatrixDSTable.
pub(crate) const AL_MATRIX_DS: TableObjects = TableObjects {
    entry: &[1, 3, 6, 1, 2, 1, 16, 17, 2, 1],
    columns: APPLICATION_COLUMNS,
};

/// Packets, octets and the time of creation of a pair, and of a protocol of it.
const NETWORK_COLUMNS: &[u32] = &[4, 5, 6];

const APPLICATION_COLUMNS: &[u32] = &[2, 3, 4];

/// Pairs as nlMatrixSD shows them, and alMatrixSD their protocols: by source and destination.
#[derive(Drop)]
pub(crate) struct SourceView;

impl LayerView for SourceView {
    ghost use Rattle.rm_hl_matrices.specs.Collection.{by_source};
    ghost use Rattle.rm_hl_matrices.specs.PairLaws.{nl_source_shown, al_source_shown};

    type Part = PairPart;

    type Key = AddressPair<[u8; 4]>;

    type Counts = PairCounts;

    type Rows = HeldTable<AddressPair<[u8; 4]>, PairCounts>;

    ghost table_of = { by_source };

    ghost networks = { nl_matrix_sd };

    ghost applications = { al_matrix_sd };

    ghost application_count = { application_count };

    fn rows(part: &PairPart) -> &HeldTable<AddressPair<[u8; 4]>, PairCounts> {
        part.pairs.first()
    }

    fn networks() -> MarkedObjects {
        network_objects(NL_MATRIX_SD)
    }

    fn applications() -> MarkedObjects {
        application_objects(AL_MATRIX_SD)
    }

    fn network_count(column: u32, counts: &PairCounts) -> u64 {
        network_count(column, counts)
    }

    fn application_count(column: u32, counts: &PairCounts) -> u64 {
        application_count(column, counts)
    }

    ghost networks_shown = { nl_source_shown };

    ghost applications_shown = { al_source_shown };
}

/// Pairs as nlMatrixDS shows them, and alMatrixDS their protocols: by destination and source.
#[derive(Drop)]
pub(crate) struct DestinationView;

impl LayerView for DestinationView {
    ghost use Rattle.rm_hl_matrices.specs.Collection.{by_destination};
    ghost use Rattle.rm_hl_matrices.specs.PairLaws.{nl_destination_shown, al_destination_shown};

    type Part = PairPart;

    type Key = AddressPair<[u8; 4]>;

    type Counts = PairCounts;

    type Rows = PairTable;

    ghost table_of = { by_destination };

    ghost networks = { nl_matrix_ds };

    ghost applications = { al_matrix_ds };

    ghost application_count = { application_count };

    fn rows(part: &PairPart) -> &PairTable {
        &part.pairs
    }

    fn networks() -> MarkedObjects {
        network_objects(NL_MATRIX_DS)
    }

    fn applications() -> MarkedObjects {
        application_objects(AL_MATRIX_DS)
    }

    fn network_count(column: u32, counts: &PairCounts) -> u64 {
        network_count(column, counts)
    }

    fn application_count(column: u32, counts: &PairCounts) -> u64 {
        application_count(column, counts)
    }

    ghost networks_shown = { nl_destination_shown };

    ghost applications_shown = { al_destination_shown };
}

// A table of pairs, and one of their protocols: the last column shows when a row was made.
fn network_objects(objects: TableObjects) -> MarkedObjects
    ensures { result ≡ record { objects = objects; created = 6 } }
{
    MarkedObjects {
        objects,
        created: 6,
    }
}

fn application_objects(objects: TableObjects) -> MarkedObjects
    ensures { result ≡ record { objects = objects; created = 4 } }
{
    MarkedObjects {
        objects,
        created: 4,
    }
}

// The gauge in a column of a pair, and in one of a protocol of it.
fn network_count(column: u32, counts: &PairCounts) -> u64
    ensures { result ≡ network_count column counts.now }
{
    match column {
        4 => counts.pkts,
        _ => counts.octets,
    }
}

fn application_count(column: u32, counts: &PairCounts) -> u64
    ensures { result ≡ application_count column counts.now }
{
    match column {
        2 => counts.pkts,
        _ => counts.octets,
    }
}
