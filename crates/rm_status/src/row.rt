// A row of a control table.
ghost use Rattle.std.specs.Prelude.{◌≡◌};
ghost use Rattle.rm_val.specs.Val.{val_of};
ghost use Rattle.rm_val.specs.Spellable.{HasSpelling};
ghost use Rattle.rm_model.specs.ControlCells.{status_number, control_value};
ghost use Rattle.rm_columns.specs.Field.{shows};

use rm_columns::{ControlRow, shown};
use rm_model::{State, StatusKind};
use rm_val::Value;

/// A row of a control table: its index, its state, and its columns.
#[derive(Drop)]
pub struct Row<C> {
    /// The number of its index; where that is one number, that number. The rows of a control table have such as rows can have.
    pub index: u32,
    /// Its state, in a control table never absent.
    pub state: State,
    /// Its columns.
    pub columns: C,
}

// What stands where there is no row is a new one with the number 0, which is no row's.
impl<C: ControlRow> Default for Row<C> {
    ghost is_default = { λ row. Unit {0} };

    fn default() -> Self {
        Row {
            index: 0,
            state: State::Absent,
            columns: C::blank(0),
        }
    }
}

impl<C: ControlRow> Row<C> {
    /// What a column of the row shows, with `other` for one that can't be set.
    pub fn cell<'a>(&'a self, column: u32, other: Value<'a>) -> Value<'a>
        requires spelled { C.spelled self.now.columns }
        requires spelling { HasSpelling (val_of other) }
        ensures value { val_of result ≡ control_value C.form.table self.now.state (shows C.form.table C.form.set_to self.now.columns) (val_of other.entry) column }
        ensures spelling { HasSpelling (val_of result) }
    {
        if column == C::status() {
            Value::Int(status_number(C::kind(), self.state))
        } else {
            shown(&self.columns, column, other)
        }
    }
}

/// The number of a state, as the kind of status has it (RFC 1757, section 5, and RFC 1903).
pub fn status_number(kind: StatusKind, state: State) -> i32
    ensures { result ≡ status_number kind state }
{
    match kind {
        StatusKind::EntryStatus => match state {
            State::Valid => 1,
            State::UnderCreation => 3,
            State::Absent => 4,
        },
        StatusKind::RowStatus => match state {
            State::Valid => 1,
            State::UnderCreation => 2,
            State::Absent => 6,
        },
    }
}
