// The rows of a control table, and how what they collect begins.
ghost use Rattle.std.specs.Prelude.{◌≡◌};
ghost use Rattle.std.specs.Option.{option_copied};
ghost use Rattle.rm_collect.specs.WellHeld.{AreAllInRange, all_in_range_prop};
ghost use Rattle.rm_collect.specs.Begun.{valid_columns};

use crate::collected::Collected;
use rm_columns::ControlRow;
use rm_model::State;
use rm_pool::Begin;
use rm_status::Controls;

/// The rows of a control table, what they share, and the moment that it is. What a valid row collects that has nothing yet begins by
/// these: by the columns of the row, and what all rows share, at that moment.
#[derive(Drop)]
pub(crate) struct Table<P: Collected> {
    /// The rows.
    pub rows: Controls<P::Columns>,
    /// What all rows share.
    pub shared: P::Shared,
    /// The moment of the last frame or Set, in milliseconds.
    pub last: u32,
    ghost in_range: { AreAllInRange P.collection rows } by { all_in_range_prop P.collection rows },
}

impl<P: Collected> Begin<P> for Table<P> {
    ghost use Rattle.rm_collect.specs.Begun.{Begins, valid_columns};

    ghost begun = { λ s row part. Begins P.Columns.form P.collection s.shared s.last (valid_columns s.rows row) part };

    fn begin(&self, row: u32, part: &mut P) {
        if let Some(columns) = valid_columns(&self.rows, row) {
            part.begin(columns, &self.shared, self.last);
        }
    }
}

// The columns of a row. None where it isn't valid.
fn valid_columns<C: ControlRow>(rows: &Controls<C>, row: u32) -> Option<&C>
    ensures { option_copied result ≡ valid_columns rows.now row }
{
    match rows.state(row) {
        State::Valid => rows.get(row),
        _ => None,
    }
}
