/// Where the frames of a capture stand: the interface that they are of, and the moment at which a time stands.
#[derive(Clone, Copy, Debug, PartialEq, Eq)]
pub struct Start {
    /// The number of the interface, from 1.
    pub interface: u32,
    /// A moment, in milliseconds. No frame stands before it.
    pub lead: u32,
    /// The time in nanoseconds that stands at that moment. None where it is the time of the first record.
    pub base: Option<u64>,
}
