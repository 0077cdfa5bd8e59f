//! Pools of storage: one part for each valid row of a control table, and spare parts for rows that become valid.
#![tactic(auto)]

mod begin;
mod change;
mod follow;
mod part;
mod pool;
mod room;
mod slot;
mod storage;
mod walk;

pub use begin::Begin;
pub use change::Change;
pub use part::Part;
pub use pool::Pool;
