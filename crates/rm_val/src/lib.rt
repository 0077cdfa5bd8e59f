//! Names and values, and what every layer answers for want of memory or room.
#![tactic(auto)]

mod error;
mod oid;
mod value;

pub use error::{ErrorStatus, Full, NoMemory};
pub use oid::Oid;
pub use value::Value;
