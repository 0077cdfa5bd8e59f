// What a sample of an alarm comes to.

/// What a sample of an alarm comes to (RFC 1757, section 5).
#[derive(Clone, Copy, Debug, PartialEq, Eq)]
pub enum Sampled {
    /// It crosses no threshold.
    Quiet,
    /// The variable is gone, and so is the alarm.
    Gone,
    /// It crosses the rising threshold.
    Rising,
    /// It crosses the falling threshold.
    Falling,
}
