// The outside in memory, for tests. Each form tells all that it holds, and fails where it is to.
mod calls;
mod clock;
mod datagrams;
mod link;
mod shelf;
mod sink;
mod stored_file;

pub use clock::ListClock;
pub use link::MemLink;
pub use shelf::MemShelf;
pub use sink::MemSink;
