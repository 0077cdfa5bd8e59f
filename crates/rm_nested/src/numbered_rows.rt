// Inner rows that are shown by their numbers.
ghost use Rattle.std.specs.Prelude.{◌≡◌, ◌+◌, ◌≤◌, ℕ, List, Bool, length, false, refl, IsTrue};
ghost use Rattle.std.proofs.Math.Nat.{le-add_right};
ghost use Rattle.rm_val.specs.Val.{Val};
ghost use Rattle.rm_model.specs.Numbers.{IsNumberAbove};
ghost use Rattle.rm_group.specs.Search.{are_rising};
ghost use Rattle.rm_columns.specs.RowForm.{can_name};
ghost use Rattle.rm_pool.specs.declared.slot.Slot.{Slot};
ghost use Rattle.rm_pool.specs.Slots.{has_part};
ghost use Rattle.rm_nested.specs.NumberedRows.{shows, is_kept_of, no_inner};

use crate::inner_rows::InnerRows;
use crate::inner_table::InnerTable;
use crate::number::{first_number, one_number_above};
use rm_group::TableObjects;
use rm_pool::{Part, Pool};
use rm_val::Oid;

/// A part of a pool that shows inner rows by their numbers, from 1, as the history of a row shows its buckets.
pub trait NumberedPart: Part {
    /// Whether an inner row is shown, at a moment in milliseconds and by its number.
    ghost is_shown: { Self → ℕ → ℕ → Bool };

    /// Whether the inner row with a number is shown at a moment in milliseconds.
    fn shows(&self, number: u32, now: u32) -> bool
        ensures { result ≡ is_shown self.now now number };

    /// The least number above one of an inner row that is shown at a moment in milliseconds. None where none above is shown.
    fn number_above(&self, number: u32, now: u32) -> Option<u32>
        ensures { IsNumberAbove (is_shown self.now now) number result };

    /// None has the number 0.
    ghost from_1: { (part : Self) (now : ℕ) → is_shown part now 0 ≡ false };
}

/// Inner rows that the parts of a pool show by their numbers: the index of each is the number of its control row, and its own. What
/// implements it is an `InnerTable` too.
pub trait NumberedRows {
    /// What the pool keeps of a control row.
    type Part: NumberedPart;

    /// The parts.
    ghost parts: { Self → List (Slot Self.Part) };

    /// The identifier of the table's entry.
    ghost entry: { List ℕ };

    /// The numbers of its columns.
    ghost columns: { List ℕ };

    /// What a column shows: by the number of a control row, its part, the number of an inner row, and that of the column.
    ghost value_of: { Self → ℕ → Self.Part → ℕ → ℕ → Val };

    /// The parts.
    fn parts(&self) -> &Pool<Self::Part>
        ensures { result.now ≡ parts self.now };

    /// The objects of the table.
    fn table() -> TableObjects
        ensures entry { result.entry.now ≡ entry }
        ensures columns { result.columns.now ≡ columns };

    /// The columns rise.
    ghost rising: { IsTrue (are_rising columns) };

    /// The name of a cell has a spelling.
    ghost named: { IsTrue (can_name 1 entry) };

    /// It isn't too long.
    ghost fits: { length entry + 2 + 1 ≤ 128 };
}

impl<R: NumberedRows> InnerRows for R {
    ghost is_outer = { λ s row. has_part (R.parts s) row };

    ghost is_inner = { λ s now row index. is_kept_of R.Part.is_shown (R.parts s) now row index };

    ghost longest = { 1 };

    fn row_after(&self, row: u32) -> Option<u32> {
        self.parts().after(row)
    }

    fn inner_after(&self, row: u32, index: &Oid, now: u32) -> Option<Oid> {
        one_number_above(index, number_above(self, row, first_number(index), now))
    }

    ghost not_empty = { λ s now row. refl };

    ghost of_outer = { λ s now row index none. no_inner R.Part.is_shown (R.parts s) now row index none };

    ghost short = { le-add_right 1 126 };
}

impl<R: NumberedRows> InnerTable for R {
    ghost entry = { R.NumberedRows.entry };

    ghost columns = { R.NumberedRows.columns };

    fn objects() -> TableObjects {
        R::table()
    }

    ghost rising = { R.NumberedRows.rising };

    ghost named = { R.NumberedRows.named };

    ghost fits = { R.NumberedRows.fits };
}

// The least number above one of an inner row of a control row that is shown at a moment in milliseconds.
fn number_above<R: NumberedRows>(rows: &R, row: u32, number: u32, now: u32) -> Option<u32>
    ensures { IsNumberAbove (shows R.Part.is_shown (R.parts rows.now) now row) number result }
{
    rows.parts().get(row)?.number_above(number, now)
}
