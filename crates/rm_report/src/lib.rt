//! What hosts gain while a report runs, and the hosts that gained most (RFC 1757, section 5, hostTopN).
#![tactic(auto)]

mod copied;
mod ranked;
mod rate_base;
mod report;

pub use copied::Copied;
pub use ranked::Ranked;
pub use rate_base::RateBase;
pub use report::Report;
