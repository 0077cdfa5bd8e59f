// The tables of inner rows.
ghost use Rattle.std.specs.Prelude.{◌≡◌, ℕ, ◌+◌, ◌≤◌, List, length, IsTrue};
ghost use Rattle.rm_group.specs.Search.{are_rising};
ghost use Rattle.rm_columns.specs.RowForm.{can_name};

use crate::inner_rows::InnerRows;
use rm_group::TableObjects;
use rm_val::Oid;

/// Inner rows, with the objects of their table.
pub trait InnerTable: InnerRows {
    /// The identifier of the table's entry.
    ghost entry: { List ℕ };

    /// The numbers of its columns.
    ghost columns: { List ℕ };

    /// The objects of the table.
    fn objects() -> TableObjects
        ensures entry { result.entry.now ≡ entry }
        ensures columns { result.columns.now ≡ columns };

    /// The columns rise.
    ghost rising: { IsTrue (are_rising columns) };

    /// The name of a cell has a spelling.
    ghost named: { IsTrue (can_name 1 entry) };

    /// It isn't too long.
    ghost fits: { length entry + 2 + Self.InnerRows.longest ≤ 128 };

    /// The identifier of the table's entry.
    final fn entry() -> Oid
        ensures { result ≡ entry }
    {
        Oid::from_slice(Self::objects().entry).unwrap()
    }

    /// The numbers of its columns.
    final fn columns() -> &'static [u32]
        ensures { result.now ≡ columns }
    {
        Self::objects().columns
    }
}
