// Events that fire.

/// An event that fires, and by which channel, if by one. By none it is by a sample of an alarm.
#[derive(Clone, Copy, Debug, PartialEq, Eq)]
pub struct Firing {
    /// The index of the event.
    pub event: u32,
    /// The index of the channel.
    pub channel: Option<u32>,
}
