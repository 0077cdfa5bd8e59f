// The cells of inner rows that are shown by their numbers.
ghost use Rattle.std.specs.Prelude.{◌≡◌, ◌≤◌, true};
ghost use Rattle.rm_val.specs.Val.{val_of};
ghost use Rattle.rm_val.specs.Spellable.{HasSpelling};
ghost use Rattle.rm_pool.specs.Pools.{AreNumbered};
ghost use Rattle.rm_nested.specs.NumberedRows.{value_at};

use crate::inner_cells::InnerCells;
use crate::number::two_numbers;
use crate::numbered_rows::{NumberedPart, NumberedRows};
use rm_model::Instance;
use rm_val::Value;

/// Inner rows that are shown by their numbers, with what the columns of their table show. What implements it is an `InnerCells` too.
pub trait NumberedCells<'a>: NumberedRows {
    /// What a column shows of an inner row, which the part of its control row shows at a moment in milliseconds.
    fn show(&self, row: u32, part: &Self::Part, number: u32, column: u32, now: u32) -> Value<'a>
        requires row { row ≤ 65535 }
        requires shown { Self.Part.is_shown part.now now number ≡ true }
        ensures value { val_of result ≡ Self.NumberedRows.value_of self.now row part.now number column }
        ensures spelling { HasSpelling (val_of result) };
}

impl<'a, R: NumberedCells<'a>> InnerCells<'a> for R {
    ghost shown = { λ s. value_at (R.value_of s) (R.parts s) };

    ghost can_show = { λ s. AreNumbered (R.parts s) };

    fn value(&self, at: &Instance, now: u32) -> Option<Value<'a>> {
        let (row, number) = two_numbers(&at.index)?;
        let part = self.parts().get(row)?;
        if part.shows(number, now) {
            Some(self.show(row, part, number, at.column, now))
        } else {
            None
        }
    }
}
