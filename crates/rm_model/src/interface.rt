// The interfaces.

/// How many interfaces the probe can have. Their numbers are 1 to this one.
pub const INTERFACES: u32 = 4;
