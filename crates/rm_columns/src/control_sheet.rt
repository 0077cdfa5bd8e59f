// The description of a control table, as data.
use rm_group::TableObjects;
use rm_model::{ColumnSheet, StatusKind};

/// A control table.
#[derive(Clone, Copy)]
pub struct ControlSheet {
    /// Its objects: its entry, and all its columns, in rising order.
    pub objects: TableObjects,
    /// The number of the status column.
    pub status: u32,
    /// The kind of the status column.
    pub kind: StatusKind,
    /// How many rows it has at most. There is room for 32.
    pub most: usize,
    /// The columns that can be set, beside the status.
    pub columns: &'static [ColumnSheet],
}
