//! Pairs of addresses, and what is counted and kept of them in the network and application layer (RFC 2021, section 6).
#![tactic(auto)]

mod address_pair;
mod pair_counts;
mod pair_row;

pub use address_pair::AddressPair;
pub use pair_counts::PairCounts;
