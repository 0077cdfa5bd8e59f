// Where a name stands in a control table.

/// Where a name stands under the entry of a control table, whose rows have numbers by their indexes.
#[derive(Clone, Copy, Debug, PartialEq, Eq)]
pub enum Place {
    /// It doesn't begin with the entry.
    Outside,
    /// It is the entry.
    Entry,
    /// It begins with a column, and what follows is the index of no number.
    Column(u32),
    /// It is a column, and the number of the index that follows.
    Cell(u32, u32),
}
