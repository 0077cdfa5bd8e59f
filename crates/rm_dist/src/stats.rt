// The protocols that the rows of protocolDistControl have counted.
ghost use Rattle.std.specs.Prelude.{◌≡◌, ◌∷◌, [], refl, is_some};
ghost use Rattle.std.specs.Option.{option_copied};
ghost use Rattle.std.proofs.Math.Nat.{le-add_right};
ghost use Rattle.rm_status.specs.Rows.{columns_in};
ghost use Rattle.rm_nested.specs.Nested.{is_number};
ghost use Rattle.rm_nested.specs.InnerTable.{numbered_value};
ghost use Rattle.rm_dist.specs.Columns.{stats_columns};
ghost use Rattle.rm_dist.specs.DistStats.{stats_entry};
ghost use Rattle.rm_dist.specs.Counts.{count_in};
ghost use Rattle.rm_dist.specs.Shown.{IsLocalAfter, count_kept, counts_kept, has_count, value_kept};

use crate::count::Count;
use crate::counts::Counts;
use crate::row::DistributionRow;
use rm_group::TableObjects;
use rm_model::Instance;
use rm_nested::{InnerCells, InnerRows, InnerTable};
use rm_status::Controls;
use rm_val::{Oid, Value};

/// The objects of protocolDistStats.
pub(crate) const STATS_OBJECTS: TableObjects = TableObjects {
    entry: &[1, 3, 6, 1, 2, 1, 16, 12, 2, 1],
    columns: &[1, 2],
};

/// What the rows of protocolDistControl have counted, by the row and by the local index of the protocol.
#[derive(Clone, Copy, Drop)]
pub(crate) struct Counted<'a> {
    /// The rows.
    pub rows: &'a Controls<DistributionRow>,
}

// What a row has counted of each protocol. None where the row isn't active, or there is none.
fn counts_of(rows: &Controls<DistributionRow>, row: u32) -> Option<&Counts>
    ensures { option_copied result ≡ counts_kept rows.now row }
{
    let tally = rows.get(row)?.tally.as_ref()?;
    Some(&tally.counts)
}

// What a row has counted of the protocol with a local index. None where there is nothing.
fn count(rows: &Controls<DistributionRow>, row: u32, local: u32) -> Option<&Count>
    ensures { option_copied result ≡ count_kept rows.now row local }
{
    counts_of(rows, row)?.get(local)
}

// The least local index above some numbers of a protocol that a row has counted. None where there is none above.
fn local_after(rows: &Controls<DistributionRow>, row: u32, index: &Oid) -> Option<u32>
    ensures { IsLocalAfter (has_count rows.now row) index.now result }
{
    next_local(counts_of(rows, row)?, index)
}

// The same by what the row has counted.
fn next_local(counts: &Counts, index: &Oid) -> Option<u32>
    ensures { IsLocalAfter (λ local. is_some (count_in counts.now local)) index.now result }
{
    if index.len() == 0 {
        counts.first()
    } else {
        counts.above(index.at(0))
    }
}

impl InnerRows for Counted<'_> {
    ghost use Rattle.rm_dist.specs.ShownLaws.{of_row};

    ghost is_outer = { λ s row. is_some (columns_in s.rows.now row) };

    ghost is_inner = { λ s now row index. is_number (has_count s.rows.now row) index };

    ghost longest = { 1 };

    fn row_after(&self, row: u32) -> Option<u32> {
        self.rows.after(row)
    }

    fn inner_after(&self, row: u32, index: &Oid, _now: u32) -> Option<Oid> {
        let local = local_after(self.rows, row, index)?;
        Some(one_number(local))
    }

    ghost not_empty = { λ s now row. refl };

    ghost of_outer = { λ s now row index none. of_row s.rows.now row index none };

    ghost short = { le-add_right 1 126 };
}

// The index that is one number.
fn one_number(number: u32) -> Oid
    ensures { result ≡ number ∷ [] }
{
    Oid::from_slice(&[number]).unwrap()
}

impl InnerTable for Counted<'_> {
    ghost entry = { stats_entry };

    ghost columns = { stats_columns };

    fn objects() -> TableObjects
        ensures entry { result.entry.now ≡ stats_entry }
        ensures columns { result.columns.now ≡ stats_columns }
    {
        STATS_OBJECTS
    }

    ghost rising = { refl };

    ghost named = { refl };

    ghost fits = { le-add_right 13 115 };
}

impl<'a> InnerCells<'a> for Counted<'a> {
    ghost shown = { λ s. numbered_value (value_kept s.rows.now) };

    ghost can_show = { λ s. Unit {0} };

    fn value(&self, at: &Instance, _now: u32) -> Option<Value<'a>> {
        if at.index.len() != 2 {
            return None;
        }
        let count = count(self.rows, at.index.at(0), at.index.at(1))?;
        Some(Value::Gauge(match at.column {
            1 => count.packets,
            _ => count.octets,
        }))
    }
}
