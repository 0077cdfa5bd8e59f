// How the tables of the network and application layer show what parts hold.
ghost use Rattle.std.specs.Prelude.{◌≡◌, ℕ, ◌+◌};
ghost use Rattle.rm_upper.specs.LayerTable.{LayerTable};
ghost use Rattle.rm_layer_tables.specs.Tables.{MarkedTable, CanShow};

use crate::layer_key::LayerKey;
use crate::layer_rows::LayerRows;
use rm_group::TableObjects;
use rm_pool::Part;
use rm_upper::{Counts, LayerCounts};

/// A table whose rows stand at marks: its objects, and the column that shows when a row was made.
#[derive(Clone, Copy)]
pub struct MarkedObjects {
    /// Its entry and its columns.
    pub objects: TableObjects,
    /// The column of the time of creation.
    pub created: u32,
}

/// A table of network rows and one of application rows, which show what the parts of a pool hold: nlHost and alHost, nlMatrixSD and
/// alMatrixSD, or nlMatrixDS and alMatrixDS (RFC 2021, section 6).
pub trait LayerView {
    /// What the pool keeps of a control row.
    type Part: Part;

    /// The keys of network rows.
    type Key: LayerKey;

    /// What network rows count.
    type Counts: LayerCounts;

    /// What shows the rows of a part: by their keys (`HeldTable`), or by these reversed (`TwoOrders`).
    type Rows: LayerRows<Key = Self::Key, Counts = Self::Counts>;

    /// The rows of a part, as they are shown.
    ghost table_of: { Self.Part → LayerTable Self.Key Self.Counts Self.Counts.Application };

    /// The table of network rows.
    ghost networks: { MarkedTable Self.Counts };

    /// The table of application rows.
    ghost applications: { MarkedTable Self.Counts };

    /// What a column of that one counts of what an application row adds up.
    ghost application_count: { ℕ → Self.Counts.Application → ℕ };

    /// The rows of a part.
    fn rows(part: &Self::Part) -> &Self::Rows
        ensures { Self.Rows.table result.now ≡ table_of part.now };

    /// The table of network rows.
    fn networks() -> MarkedObjects
        ensures entry { result.objects.entry.now ≡ networks.entry }
        ensures columns { result.objects.columns.now ≡ networks.columns }
        ensures created { result.created ≡ networks.created };

    /// The table of application rows.
    fn applications() -> MarkedObjects
        ensures entry { result.objects.entry.now ≡ applications.entry }
        ensures columns { result.objects.columns.now ≡ applications.columns }
        ensures created { result.created ≡ applications.created };

    /// What a column of network rows counts.
    fn network_count(column: u32, counts: &Self::Counts) -> u64
        ensures { result ≡ networks.count column counts.now };

    /// What a column of application rows counts.
    fn application_count(column: u32, counts: &<Self::Counts as Counts>::Application) -> u64
        ensures { result ≡ application_count column counts.now };

    /// The names of the cells of network rows can be spelled.
    ghost networks_shown: { CanShow networks (2 + Self.Key.form.count) };

    /// And those of application rows.
    ghost applications_shown: { CanShow applications (3 + Self.Key.form.count) };
}
