// Where a name stands in a table.
use rm_val::Oid;

/// A column of a table, and the numbers that follow it in a name: the index of a row, if there is such a row.
#[derive(Drop)]
pub struct Instance {
    /// The number of the column.
    pub column: u32,
    /// The numbers after it.
    pub index: Oid,
}
