//! The statistics of Ethernet interfaces: etherStatsTable (RFC 1757, section 5).
#![tactic(auto)]

mod added;
mod cell;
mod change;
mod counter;
mod ether;
mod row;
mod statistics;

pub use change::Adding;
pub use counter::Counter;
pub use ether::Ether;
pub use row::StatisticsRow;
pub use statistics::Statistics;
