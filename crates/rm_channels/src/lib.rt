//! Filters, channels and capture buffers as one group of objects: all channels judge a frame before buffers keep it, and buffers keep it
//! before its events turn channels.
#![tactic(auto)]

mod channels;
mod group;

pub use channels::Channels;
