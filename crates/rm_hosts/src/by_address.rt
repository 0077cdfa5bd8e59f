// The hosts by their addresses.
ghost use Rattle.std.specs.Prelude.{refl, true};
ghost use Rattle.rm_hosts.specs.Columns.{host_columns};
ghost use Rattle.rm_hosts.specs.Host.{host_entry};
ghost use Rattle.rm_hosts.specs.Shown.{kept_value, with_address, no_empty_address};
ghost use Rattle.std.proofs.Common.{rules};

use crate::host_rows::HostRows;
use crate::shown::{HOST_COLUMNS, host_value};
use rm_group::TableObjects;
use rm_keyed::{KeyTable, key_above, key_at};
use rm_val::{Oid, Value};

/// The objects of hostTable (RFC 1757, section 5).
pub(crate) const HOST_OBJECTS: TableObjects = TableObjects {
    entry: &[1, 3, 6, 1, 2, 1, 16, 4, 2, 1],
    columns: HOST_COLUMNS,
};

/// The hosts of rows, by their addresses.
#[derive(Clone, Copy, Drop)]
pub struct ByAddress;

impl KeyTable for ByAddress {
    type Part = HostRows;

    type Key = [u8; 6];

    ghost key_at = { with_address };

    ghost is_open = { λ now. true };

    ghost longest = { 7 };

    ghost value_of = { kept_value };

    ghost entry = { host_entry };

    ghost columns = { host_columns };

    fn objects() -> TableObjects {
        HOST_OBJECTS
    }

    fn is_open(_now: u32) -> bool {
        true
    }

    fn index_above(rows: &HostRows, index: &Oid) -> Option<Oid> {
        key_above(rows.keyed.rows(), index)
    }

    fn value<'a>(row: u32, rows: &'a HostRows, index: &Oid, column: u32) -> Option<Value<'a>> {
        let address = key_at(rows.keyed.rows(), index, 1)?;
        Some(host_value(row, rows, address, column))
    }

    ghost not_empty = { no_empty_address };

    ghost short = { Prim.search rules };

    ghost rising = { refl };

    ghost named = { refl };

    ghost fits = { Prim.search rules };
}
