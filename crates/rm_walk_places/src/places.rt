// The bounds of indexes, and places in a walk of them.
use rm_val::Oid;

/// The least and the greatest number at a place of an index.
#[derive(Clone, Copy, PartialEq, Eq, Debug, Drop)]
pub struct Bounds {
    /// The least one.
    pub least: u32,
    /// The greatest one.
    pub greatest: u32,
}

/// The greatest numbers within bounds that aren't above those asked for.
#[derive(Drop)]
pub struct Reached {
    /// The numbers, one for each place.
    pub numbers: Oid,
    /// The number, behind these, above which a walk of protocols goes on. None where it goes on from the first one on.
    pub protocol: Option<u32>,
}

/// Where a walk by index goes on.
#[derive(Drop)]
pub struct WalkPlace {
    /// The mark.
    pub mark: u32,
    /// The numbers behind the mark above which it goes on. None where it goes on from the first row of the mark on.
    pub reached: Option<Reached>,
}
