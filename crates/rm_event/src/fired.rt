// What became of an event that was to fire.

/// What became of an event that was to fire.
#[derive(Clone, Copy, Debug, PartialEq, Eq)]
pub enum Fired {
    /// There is no valid row of it, so that it didn't fire.
    Absent,
    /// It fired, and does nothing more.
    Silent,
    /// It was logged.
    Logged,
    /// A trap is to be sent.
    Trap,
    /// It was logged, and a trap is to be sent.
    Both,
}
