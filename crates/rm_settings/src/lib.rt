//! What the probe is set to: how much its tables hold, how frames count, and which communities are answered.
#![tactic(auto)]

mod settings;

pub use settings::{Community, Settings};
