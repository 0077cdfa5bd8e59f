// Whether a channel may fire its event.
ghost use Rattle.rm_filter.specs.EventStatus.{numbering};

use rm_columns::Numbered;

/// Whether a channel fires its event where it accepts a packet (RFC 1757, channelEventStatus).
#[derive(Clone, Copy, Debug, PartialEq, Eq)]
pub enum EventStatus {
    /// eventReady: once, and it is fired then.
    Ready = 1,
    /// eventFired: not until it is made ready again.
    Fired = 2,
    /// eventAlwaysReady: each time.
    AlwaysReady = 3,
}

impl Numbered for EventStatus {
    ghost numbering = { numbering };

    fn variants() -> &'static [EventStatus] {
        &[Self::Ready, Self::Fired, Self::AlwaysReady]
    }

    fn number(self) -> i32 {
        self as i32
    }
}
