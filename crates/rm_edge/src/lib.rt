//! The outside of a probe: where files are read, lines are put, datagrams come and go, and the
//! time is told. Each of the four has a form in memory, for tests, and an adapter over the real thing.
#![tactic(auto)]

mod digits;
mod memory;
mod outside;
mod real;
mod words;

pub use digits::read_number;
pub use memory::{ListClock, MemLink, MemShelf, MemSink};
pub use outside::{Clock, Failed, Link, Peer, Shelf, Sink};
pub use real::{Counted, FileShelf, HostClock, StdSink, UdpLink};
pub use words::Words;
