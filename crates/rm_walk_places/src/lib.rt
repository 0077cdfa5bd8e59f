//! Where a walk (GetNext) of a table goes on whose indexes begin with a mark (TimeFilter, RFC 2021, section 6), go on with one number within
//! bounds for each of some places, and in some tables end with one number more, a protocol's local index.
#![tactic(auto)]

mod places;
mod walk;

pub use places::{Bounds, Reached, WalkPlace};
pub use walk::walk_place;
