// What a variable reads.

/// What a variable of type INTEGER, Counter32, Gauge32 or TimeTicks reads.
#[derive(Clone, Copy, Debug, PartialEq, Eq)]
pub struct Reading {
    /// The number.
    pub value: i64,
    /// Whether it is a Counter32, of which a difference is taken modulo 2^32.
    pub counter: bool,
}
