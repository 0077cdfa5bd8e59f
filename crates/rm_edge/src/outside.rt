// What the program asks of the outside. Each object tells what it holds, or nothing of it, and
// counts its faults.
mod clock;
mod link;
mod shelf;
mod sink;

pub use clock::Clock;
pub use link::{Link, Peer};
pub use shelf::Shelf;
pub use sink::Sink;

/// The outside failed at a call. Its count of faults has risen.
#[derive(Clone, Copy, Debug, PartialEq, Eq)]
pub struct Failed;
