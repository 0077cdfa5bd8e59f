//! Control tables whose rows ask for the rows that frames of a data source enter by keys of theirs, each control table with two tables that
//! show these.
#![tactic(auto)]

mod collected;
mod counted_frame;
mod counters;
mod of_source;
mod source_rows;
mod sourced;

pub use counters::{Counters, counter_value};
pub use source_rows::SourceRows;
pub use sourced::Sourced;
