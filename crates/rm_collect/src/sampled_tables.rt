// Which tables alarms may sample.

/// Which of a control table and of the tables beside it alarms may sample (RFC 1757, alarmVariable).
#[derive(Clone, Copy, PartialEq, Eq, Debug)]
pub enum SampledTables {
    /// All of them.
    AllTables,
    /// The control table alone.
    ControlTable,
    /// None of them.
    NoTable,
}
