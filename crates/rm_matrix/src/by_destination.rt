// The pairs by their destinations and then by their sources.
ghost use Rattle.std.specs.Prelude.{◌≡◌, ◌≤◌, refl, drop, IfSome, true};
ghost use Rattle.std.specs.Option.{option_map};
ghost use Rattle.rm_val.specs.Val.{val_of};
ghost use Rattle.rm_val.specs.Spellable.{HasSpelling};
ghost use Rattle.rm_matrix.specs.Columns.{pair_columns};
ghost use Rattle.rm_matrix.specs.DestinationSource.{destination_entry};
ghost use Rattle.rm_matrix.specs.Shown.{kept_value, by_destination, no_empty_destination};
ghost use Rattle.std.proofs.Common.{rules};

use crate::matrix_rows::MatrixRows;
use crate::shown::{PAIR_COLUMNS, pair_value};
use rm_group::TableObjects;
use rm_keyed::{AddressPair, KeyTable, key_above, key_at};
use rm_val::{Oid, Value};

/// The objects of matrixDSTable (RFC 1757, section 5).
pub(crate) const DESTINATION_OBJECTS: TableObjects = TableObjects {
    entry: &[1, 3, 6, 1, 2, 1, 16, 6, 3, 1],
    columns: PAIR_COLUMNS,
};

/// The pairs of rows, by their destinations and then by their sources.
#[derive(Clone, Copy, Drop)]
pub struct ByDestination;

impl KeyTable for ByDestination {
    type Part = MatrixRows;

    type Key = AddressPair;

    ghost key_at = { by_destination };

    ghost is_open = { λ now. true };

    ghost longest = { 14 };

    ghost value_of = { kept_value };

    ghost entry = { destination_entry };

    ghost columns = { pair_columns };

    fn objects() -> TableObjects {
        DESTINATION_OBJECTS
    }

    fn is_open(_now: u32) -> bool {
        true
    }

    fn index_above(rows: &MatrixRows, index: &Oid) -> Option<Oid> {
        key_above(&rows.reverse, index)
    }

    fn value<'a>(row: u32, rows: &'a MatrixRows, index: &Oid, column: u32) -> Option<Value<'a>>
        requires { row ≤ 65535 }
        ensures value { option_map val_of result ≡ option_map (λ pair. kept_value row rows.now pair column) (by_destination rows.now (drop 1 index.now)) }
        ensures spelling { IfSome result (λ value. HasSpelling (val_of value)) }
    {
        let pair = key_at(&rows.reverse, index, 1)?;
        Some(pair_value(row, rows, &pair.second, &pair.first, column))
    }

    ghost not_empty = { no_empty_destination };

    ghost short = { Prim.search rules };

    ghost rising = { refl };

    ghost named = { refl };

    ghost fits = { Prim.search rules };
}
