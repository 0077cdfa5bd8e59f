//! Reports of the hosts that gained most: hostTopNControlTable and hostTopNTable (RFC 1757, section 5).
#![tactic(auto)]

mod acts;
mod asking;
mod assigning;
mod beside;
mod control_columns;
mod course;
mod due;
mod ending;
mod group;
mod keeping;
mod plan;
mod reports;
mod shown;
mod top_rows;

pub use due::REPORTS;
pub use reports::Reports;
