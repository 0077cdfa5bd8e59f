// The rows as a Set will leave them.
ghost use Rattle.std.specs.Prelude.{◌≡◌, ℕ};
ghost use Rattle.rm_model.specs.ControlTable.{row_index};
ghost use Rattle.rm_model.specs.Reserves.{state_after};
ghost use Rattle.rm_status.specs.Rows.{rows_before, state_in};
ghost use Rattle.rm_status.specs.Bare.{bare_rows};
ghost use Rattle.rm_status.specs.Fine.{AreFine};

use crate::controls::{Controls, MAX_ROWS};
use crate::row::Row;
use arrayvec::ArrayVec;
use rm_columns::ControlRow;
use rm_group::Assigns;

impl<C: ControlRow> Controls<C> {
    /// The rows as a Set will leave them with which both passes found nothing wrong. Their columns have none of the rows'
    /// other data.
    pub fn rows_after<A: Assigns>(&self, set: &A) -> Controls<C>
        requires { AreFine C.form self.now (A.bindings set.now) }
        ensures { (i : ℕ) → state_in result i ≡ state_after C.form.table (rows_before C.form.table C.form.set_to self.now) (A.bindings set.now) (row_index C.form.table i) }
    {
        let mut rows = self.bare();
        rows.commit(set);
        rows
    }

    // The rows with nothing in their columns but what these were set to.
    fn bare(&self) -> Controls<C>
        ensures { bare_rows C.form.set_to result ≡ bare_rows C.form.set_to self.now }
    {
        Controls {
            rows: bare_rows(&self.rows),
        }
    }
}

// The same for rows where they are kept.
fn bare_rows<C: ControlRow>(rows: &ArrayVec<Row<C>, MAX_ROWS>) -> ArrayVec<Row<C>, MAX_ROWS>
    ensures { bare_rows C.form.set_to result.items ≡ bare_rows C.form.set_to rows.now.items }
{
    let mut bare = ArrayVec::new();
    for row in rows.as_slice() {
        bare.push(Row {
            index: row.index,
            state: row.state,
            columns: row.columns.bare(),
        });
    }
    bare
}
