//! The captures of a run, one for each interface: judged in two rounds, and read together in the order of moments.
#![tactic(auto)]

mod beginning;
mod coming;
mod counting;
mod ending;
mod fault;
mod judging;
mod laws;
mod passing;

pub use beginning::{FIRST, begin};
pub use coming::{Coming, next_of};
pub use counting::passed;
pub use ending::is_cut;
pub use fault::CaptureFault;
pub use judging::judge;
pub use laws::merge_in_order;
pub use passing::pass_next;
