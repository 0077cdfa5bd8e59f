// The rows of a control table, in the form in which a group keeps them.
ghost use Rattle.std.specs.Prelude.{◌≡◌, ℕ, ◌≤◌, length, drop, IfSome, None};
ghost use Rattle.std.specs.Option.{option_map};
ghost use Rattle.rm_val.specs.Val.{val_of};
ghost use Rattle.rm_val.specs.Spellable.{HasSpelling};
ghost use Rattle.rm_model.specs.ControlTable.{row_index};
ghost use Rattle.rm_model.specs.Judgement.{column_kind, value_fault, is_row_number};
ghost use Rattle.rm_model.specs.Sheet.{columns_of};
ghost use Rattle.rm_columns.specs.Field.{shown_with};
ghost use Rattle.rm_columns.specs.RowForm.{RowForm};

use crate::control_sheet::ControlSheet;
use crate::row_keys::RowKeys;
use rm_model::{ColumnSheet, StatusKind};
use rm_val::{Oid, Value};

/// A row of a control table, in the form in which a group keeps it: the columns that can be set, its status left out, and other data
/// of the row. A type of rows is that of one table, which it describes as data: how a Set is judged, and what a row shows, follow
/// from the description once for all tables.
pub trait ControlRow: Drop {
    /// The indexes of the rows, and what goes by them.
    type Keys: RowKeys;

    /// The form of the rows.
    ghost form: { RowForm Self };

    /// Whether what the columns show has a spelling. It always has, where no column takes a name.
    ghost spelled: { Self → Type 0 } = { λ _. Unit {0} };

    /// The description of the table.
    fn table() -> ControlSheet
        ensures entry { result.objects.entry.now ≡ form.table.entry }
        ensures shown { result.objects.columns.now ≡ form.shown }
        ensures status { result.status ≡ form.table.status }
        ensures kind { result.kind ≡ form.table.status_kind }
        ensures most { result.most ≡ form.table.most }
        ensures room { result.most ≤ 32 }
        ensures columns { columns_of result.columns.now ≡ form.table.columns };

    /// A new row with that index.
    fn blank(index: u32) -> Self
        ensures { result ≡ form.blank index };

    /// Sets a column to a value that it takes.
    fn put(&mut self, column: u32, value: &Value<'_>)
        requires takes { value_fault (column_kind form.table column) (val_of value.now) ≡ None }
        requires spelling { HasSpelling (val_of value.now) }
        ensures { self.new ≡ form.with_column self.old column (val_of value.now) };

    /// What a column was set to.
    fn show(&self, column: u32) -> Option<Value<'_>>
        ensures value { option_map val_of result ≡ form.set_to self.now column }
        ensures spelling { spelled self.now → IfSome result (λ value. HasSpelling (val_of value)) };

    /// Whether the values of the columns go together, but for what only a `Look` can tell.
    fn agree(&self) -> bool
        ensures { result ≡ form.table.go_together (shown_with form.table (form.set_to self.now)) };

    /// A row that was set to the same, with none of its other data.
    fn bare(&self) -> Self
        ensures { (n : ℕ) → form.set_to result n ≡ form.set_to self.now n };

    /// The keys are those of the table.
    ghost keyed: { (form.table.indexing ≡ Self.Keys.indexing) × (form.table.rules ≡ Self.Keys.rules) };

    /// The identifier of the table's entry.
    final fn entry() -> Oid
        ensures { result ≡ form.table.entry }
    {
        Oid::from_slice(Self::table().objects.entry).unwrap()
    }

    /// The number of the status column.
    final fn status() -> u32
        ensures { result ≡ form.table.status }
    {
        Self::table().status
    }

    /// The kind of the status column.
    final fn kind() -> StatusKind
        ensures { result ≡ form.table.status_kind }
    {
        Self::table().kind
    }

    /// The description of the writable columns beside the status, in the order of the table.
    final fn sheet() -> &'static [ColumnSheet]
        ensures { columns_of result.now ≡ form.table.columns }
    {
        Self::table().columns
    }

    /// How many rows there are at most. There is room for 32.
    final fn most() -> usize
        ensures value { result ≡ form.table.most }
        ensures room { result ≤ 32 }
    {
        Self::table().most
    }

    /// The index of the row that has a number.
    final fn index(number: u32) -> Oid
        ensures { result ≡ row_index form.table number }
    {
        Self::Keys::index(number)
    }

    /// The number of the row whose index is what a name has from a place on. None where that can be the index of no row.
    final fn number(name: &Oid, from: usize) -> Option<u32>
        requires { from ≤ length name.now }
        ensures { result ≡ form.table.indexing.number_of (drop from name.now) }
    {
        Self::Keys::number(name, from)
    }

    /// Whether a row can have a number.
    final fn is_row(number: u32) -> bool
        ensures { result ≡ is_row_number form.table number }
    {
        Self::Keys::is_row(number)
    }

    /// Whether a column of a row can never be set.
    final fn is_fixed(row: u32, column: u32) -> bool
        ensures { result ≡ form.table.rules.is_fixed (row_index form.table row) column }
    {
        Self::Keys::is_fixed(row, column)
    }

    /// Whether a row was there from the beginning and stays.
    final fn stays(row: u32) -> bool
        ensures { result ≡ form.table.rules.stays (row_index form.table row) }
    {
        Self::Keys::stays(row)
    }
}
