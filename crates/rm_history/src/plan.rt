// How the history of a row is taken.

/// How the history of a row is taken.
#[derive(Clone, Copy)]
pub struct Plan {
    /// The moment at which it began, in milliseconds.
    pub start: u32,
    /// How long each bucket lasts, in seconds, 1 to 3600.
    pub seconds: u32,
    /// How many buckets are shown at most, 1024 at most.
    pub kept: u32,
}
