// The rows of control tables.

/// The textual convention of a status column: EntryStatus (RFC 1757, section 5) or RowStatus (RFC 1903).
#[derive(Clone, Copy, Debug, PartialEq, Eq)]
pub enum StatusKind {
    /// valid 1, createRequest 2, underCreation 3, invalid 4
    EntryStatus,
    /// active 1, notInService 2, createAndGo 4, createAndWait 5, destroy 6
    RowStatus,
}

/// The state of a row of a control table.
#[derive(Clone, Copy, Debug, Default, PartialEq, Eq)]
pub enum State {
    /// There is no such row.
    #[default]
    Absent,
    /// The row is underCreation, or notInService in a table with RowStatus.
    UnderCreation,
    /// The row is valid, or active in a table with RowStatus.
    Valid,
}

/// What is asked of a row, the same for both kinds of status.
#[derive(Clone, Copy, Debug, PartialEq, Eq)]
pub enum Ask {
    /// The status isn't set.
    Nothing,
    /// createRequest, createAndWait
    Create,
    /// createAndGo
    CreateValid,
    /// valid, active
    Enable,
    /// underCreation, notInService
    Disable,
    /// invalid, destroy
    Destroy,
}
