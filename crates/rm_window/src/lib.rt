//! Files that are read through a window: a buffer that holds some octets of a file, from a place on, and moves on in it.
#![tactic(auto)]

mod filling;
mod window;

pub use filling::fill;
pub use window::Window;
