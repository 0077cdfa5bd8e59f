// The channels that accept a frame.
ghost use Rattle.std.specs.Prelude.{◌≡◌};
ghost use Rattle.rm_filter.specs.Judging.{accepted_by, is_on, event_asked};

use crate::channel::Channel;
use crate::data_control::DataControl;
use rm_status::Row;

/// A valid channel that accepts a frame.
#[derive(Clone, Copy, Debug, Default, PartialEq, Eq)]
pub struct Accepted {
    /// The index of the channel.
    pub channel: u32,
    /// Whether it is on, so that the packet flows on to its buffers.
    pub is_on: bool,
    /// The event that it fires, if the row of that is valid. None where it fires none, since it is off or has fired.
    pub event: Option<u32>,
}

impl Accepted {
    /// Of a channel that accepts a frame, by its present state.
    pub(crate) fn of(row: &Row<Channel>) -> Accepted
        ensures { result ≡ accepted_by row.now }
    {
        let is_on = is_on(row.columns.control);
        Accepted {
            channel: row.index,
            is_on,
            event: event_of(is_on, &row.columns),
        }
    }
}

// Whether a channel is on.
fn is_on(control: DataControl) -> bool
    ensures { result ≡ is_on control }
{
    match control {
        DataControl::On => true,
        DataControl::Off => false,
    }
}

// The event that a channel fires which accepts a frame.
fn event_of(is_on: bool, channel: &Channel) -> Option<u32>
    ensures { result ≡ event_asked is_on channel.now }
{
    if is_on && channel.status.is_ready() {
        Some(u32::from(channel.set.event))
    } else {
        None
    }
}
