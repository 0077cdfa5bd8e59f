// What acts make of each channel.
ghost use Rattle.std.specs.Prelude.{◌≡◌};
ghost use Rattle.rm_acts.specs.Fired.{is_by};
ghost use Rattle.rm_filter.specs.Changes.{resting, counting, taking};
ghost use Rattle.rm_filter.specs.Judging.{is_among};

use crate::accepted::Accepted;
use crate::channel::Channel;
use rm_acts::Firing;
use rm_model::State;
use rm_status::Change;

/// A Set: a channel that isn't valid has accepted nothing.
#[derive(Clone, Copy)]
pub(crate) struct Resting;

impl Change<Channel> for Resting {
    ghost changed = { λ s index state channel. resting state channel };

    fn change(&self, _index: u32, state: State, channel: &mut Channel) {
        match state {
            State::Valid => {}
            _ => channel.matches = 0,
        }
    }
}

/// A frame, which each of some channels accepts and counts.
#[derive(Clone, Copy, Drop)]
pub(crate) struct Counting<'a> {
    /// The channels.
    pub accepting: &'a [Accepted],
}

impl Change<Channel> for Counting<'_> {
    ghost changed = { λ s index state channel. counting s.accepting.now index channel };

    fn change(&self, index: u32, _state: State, channel: &mut Channel) {
        if is_among(self.accepting, index) {
            channel.matches = channel.matches.wrapping_add(1);
        }
    }
}

// Whether the channel with an index is among some.
fn is_among(accepting: &[Accepted], index: u32) -> bool
    ensures { result ≡ is_among accepting.now index }
{
    accepting.iter().any(|each| each.channel == index)
}

/// A firing of an event: it turns the channels of which the event is a turning one, and spends the channel that fires it.
#[derive(Clone, Copy, Drop)]
pub(crate) struct Taking<'a> {
    /// The firing.
    pub firing: &'a Firing,
}

impl Change<Channel> for Taking<'_> {
    ghost changed = { λ s index state channel. taking s.firing.now index state channel };

    fn change(&self, index: u32, state: State, channel: &mut Channel) {
        if let State::Valid = state {
            channel.control = channel.set.switched(channel.control, self.firing.event);
        }
        channel.status = channel.status.spent(is_by(self.firing, index));
    }
}

// Whether a firing is by a channel.
fn is_by(firing: &Firing, channel: u32) -> bool
    ensures { result ≡ is_by channel firing.now }
{
    match firing.channel {
        Some(other) => other == channel,
        None => false,
    }
}
