// The columns of the rows of a control table.
ghost use Rattle.std.specs.Prelude.{◌≡◌, List};
ghost use Rattle.std.specs.Option.{option_copied};
ghost use Rattle.rm_status.specs.declared.row.Row.{Row};
ghost use Rattle.rm_status.specs.Rows.{columns_in};

use rm_columns::ControlRow;
use rm_status::Controls;

/// The rows of a control table, for what shows columns of them in another table.
pub trait RowColumns<C> {
    /// The rows.
    ghost rows: { Self → List (Row C) };

    /// The columns of a row. None where there is no such row.
    fn columns(&self, index: u32) -> Option<&C>
        ensures { option_copied result ≡ columns_in (rows self.now) index };
}

impl<C: ControlRow> RowColumns<C> for Controls<C> {
    ghost rows = { λ s. s };

    fn columns(&self, index: u32) -> Option<&C> {
        self.get(index)
    }
}
