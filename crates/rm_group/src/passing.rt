// A frame that passes.
use rm_proto::Facts;

/// A frame that passes.
#[derive(Drop)]
pub struct Passing<'a> {
    /// What is known of it.
    pub facts: Facts,
    /// Its captured octets.
    pub octets: &'a [u8],
    /// Its number in the capture of its interface, from 1.
    pub number: u32,
    /// Its moment, in milliseconds.
    pub moment: u32,
}
