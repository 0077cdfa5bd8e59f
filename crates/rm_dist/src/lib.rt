//! The distribution of protocols (RFC 2021, section 6): protocolDistControlTable and protocolDistStatsTable.
#![tactic(auto)]

mod cell;
mod change;
mod count;
mod counts;
mod distribution;
mod group;
mod locals;
mod row;
mod stats;

pub use count::Count;
pub use counts::Counts;
pub use distribution::Distribution;
pub use row::{DistributionRow, Tally};
