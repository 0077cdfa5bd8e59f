/// Which octet of a capture's numbers comes first.
#[derive(Clone, Copy, Debug, PartialEq, Eq)]
pub enum Order {
    /// The highest one.
    HighestFirst,
    /// The lowest one.
    LowestFirst,
}

/// What the fractions of a capture's times count.
#[derive(Clone, Copy, Debug, PartialEq, Eq)]
pub enum TimeUnit {
    /// Millionths of a second.
    Microseconds,
    /// Thousand-millionths of a second.
    Nanoseconds,
}

/// How a capture's octets are read, as its magic number tells.
#[derive(Clone, Copy, Debug, PartialEq, Eq)]
pub struct Form {
    /// Which octet of its numbers comes first.
    pub order: Order,
    /// What the fractions of its times count.
    pub unit: TimeUnit,
}
