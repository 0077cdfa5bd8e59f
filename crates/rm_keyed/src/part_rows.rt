// Inner rows that the parts of a pool show by keys.
ghost use Rattle.std.specs.Prelude.{◌≡◌, ◌+◌, ◌≤◌, ℕ, List, [], length, drop, Bool, Option, None, IfSome, IsTrue, is_some};
ghost use Rattle.std.specs.Option.{option_map};
ghost use Rattle.rm_val.specs.Val.{Val, val_of};
ghost use Rattle.rm_val.specs.Spellable.{HasSpelling};
ghost use Rattle.rm_model.specs.Names.{IsLeastAbove};
ghost use Rattle.rm_group.specs.Search.{are_rising};
ghost use Rattle.rm_columns.specs.RowForm.{can_name};

use rm_group::TableObjects;
use rm_model::Instance;
use rm_nested::{InnerCells, InnerRows, InnerTable};
use rm_pool::{Part, Pool};
use rm_val::{Oid, Value};

/// A table whose inner rows the parts of a pool show, each by a key, as the hosts of a control row by their addresses. The index of a row
/// is the number of its control row, and then its index in the part.
pub trait KeyTable {
    /// What the pool keeps of a control row.
    type Part: Part;

    /// The keys of the rows.
    type Key;

    /// The key of the row that has an index in a part, if there is one.
    ghost key_at: { Self.Part → List ℕ → Option Self.Key };

    /// The table has rows at a moment in milliseconds, if its parts have any. It has none while it is closed, as a table of RFC 2021 is
    /// while sysUpTime is 0.
    ghost is_open: { ℕ → Bool };

    /// No index in a part has more numbers.
    ghost longest: { ℕ };

    /// What a column shows: by the number of a control row, its part, a key, and the number of the column.
    ghost value_of: { ℕ → Self.Part → Self.Key → ℕ → Val };

    /// The identifier of the table's entry.
    ghost entry: { List ℕ };

    /// The numbers of its columns.
    ghost columns: { List ℕ };

    /// The objects of the table.
    fn objects() -> TableObjects
        ensures entry { result.entry.now ≡ entry }
        ensures columns { result.columns.now ≡ columns };

    /// Whether the table has rows at a moment in milliseconds.
    fn is_open(now: u32) -> bool
        ensures { result ≡ is_open now };

    /// The least index in a part above these numbers. None where there is none above.
    fn index_above(part: &Self::Part, numbers: &Oid) -> Option<Oid>
        ensures least { IsLeastAbove (λ index. is_some (key_at part.now index)) numbers.now result }
        ensures fits { IfSome result (λ index. length index ≤ longest) };

    /// What a column shows of the row whose index in the part is what an index has behind its first number. None where there is none.
    fn value<'a>(row: u32, part: &'a Self::Part, index: &Oid, column: u32) -> Option<Value<'a>>
        requires { row ≤ 65535 }
        ensures value { option_map val_of result ≡ option_map (λ key. value_of row part.now key column) (key_at part.now (drop 1 index.now)) }
        ensures spelling { IfSome result (λ value. HasSpelling (val_of value)) };

    /// No index is empty.
    ghost not_empty: { (part : Self.Part) → key_at part [] ≡ None };

    /// An index fits into a name.
    ghost short: { longest ≤ 127 };

    /// The columns rise.
    ghost rising: { IsTrue (are_rising columns) };

    /// The name of a cell has a spelling.
    ghost named: { IsTrue (can_name 1 entry) };

    /// It isn't too long.
    ghost fits: { length entry + 2 + longest ≤ 128 };
}

/// The inner rows that the parts of a pool show.
#[derive(Drop)]
#[derive_where(Clone, Copy)]
pub struct PartRows<'a, T: KeyTable> {
    /// The parts.
    pub parts: &'a Pool<T::Part>,
}

impl<T: KeyTable> InnerRows for PartRows<'_, T> {
    ghost use Rattle.rm_pool.specs.Slots.{has_part, part_in};
    ghost use Rattle.rm_keyed.specs.PartRows.{key_in, no_part, no_empty};

    ghost is_outer = { λ s row. has_part s.parts.now row };

    ghost is_inner = { λ s now row index. is_some (key_in T.key_at (T.is_open now) (part_in s.parts.now row) index) };

    ghost longest = { T.longest };

    fn row_after(&self, row: u32) -> Option<u32> {
        self.parts.after(row)
    }

    fn inner_after(&self, row: u32, index: &Oid, now: u32) -> Option<Oid> {
        if !T::is_open(now) {
            return None;
        }
        T::index_above(self.parts.get(row)?, index)
    }

    ghost not_empty = { λ s now row. no_empty T.key_at T.not_empty (T.is_open now) (part_in s.parts.now row) };

    ghost of_outer = { λ s now row index none. no_part T.key_at (T.is_open now) (part_in s.parts.now row) index none };

    ghost short = { T.short };
}

impl<T: KeyTable> InnerTable for PartRows<'_, T> {
    ghost entry = { T.entry };

    ghost columns = { T.columns };

    fn objects() -> TableObjects {
        T::objects()
    }

    ghost rising = { T.rising };

    ghost named = { T.named };

    ghost fits = { T.fits };
}

impl<'a, T: KeyTable> InnerCells<'a> for PartRows<'a, T> {
    ghost use Rattle.rm_pool.specs.Pools.{AreNumbered};
    ghost use Rattle.rm_keyed.specs.PartRows.{value_shown};

    ghost shown = { λ s. value_shown T.key_at T.value_of s.parts.now };

    ghost can_show = { λ s. AreNumbered s.parts.now };

    fn value(&self, at: &Instance, now: u32) -> Option<Value<'a>> {
        if at.index.len() == 0 || !T::is_open(now) {
            return None;
        }
        let row = at.index.at(0);
        T::value(row, self.parts.get(row)?, &at.index, at.column)
    }
}
