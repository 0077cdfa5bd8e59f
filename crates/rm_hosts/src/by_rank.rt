// The hosts by their ranks in the order of entry.
ghost use Rattle.std.specs.Prelude.{refl, true};
ghost use Rattle.rm_hosts.specs.Columns.{host_columns};
ghost use Rattle.rm_hosts.specs.HostTime.{time_entry};
ghost use Rattle.rm_hosts.specs.Shown.{kept_value, with_rank};
ghost use Rattle.std.proofs.Common.{rules};

use crate::host_rows::HostRows;
use crate::shown::{HOST_COLUMNS, host_value};
use rm_group::TableObjects;
use rm_keyed::{KeyTable, key_ranked, rank_above};
use rm_val::{Oid, Value};

/// The objects of hostTimeTable (RFC 1757, section 5).
pub(crate) const TIME_OBJECTS: TableObjects = TableObjects {
    entry: &[1, 3, 6, 1, 2, 1, 16, 4, 3, 1],
    columns: HOST_COLUMNS,
};

/// The hosts of rows, by their ranks in the order of entry.
#[derive(Clone, Copy, Drop)]
pub struct ByRank;

impl KeyTable for ByRank {
    type Part = HostRows;

    type Key = [u8; 6];

    ghost key_at = { with_rank };

    ghost is_open = { λ now. true };

    ghost longest = { 1 };

    ghost value_of = { kept_value };

    ghost entry = { time_entry };

    ghost columns = { host_columns };

    fn objects() -> TableObjects {
        TIME_OBJECTS
    }

    fn is_open(_now: u32) -> bool {
        true
    }

    fn index_above(rows: &HostRows, index: &Oid) -> Option<Oid> {
        rank_above(&rows.keyed, index)
    }

    fn value<'a>(row: u32, rows: &'a HostRows, index: &Oid, column: u32) -> Option<Value<'a>> {
        let address = key_ranked(rows.keyed.rows(), index, 1)?;
        Some(host_value(row, rows, address, column))
    }

    ghost not_empty = { λ rows. refl };

    ghost short = { Prim.search rules };

    ghost rising = { refl };

    ghost named = { refl };

    ghost fits = { Prim.search rules };
}
