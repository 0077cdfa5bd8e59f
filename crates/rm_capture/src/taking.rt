// What frames and rows make of a buffer.
ghost use Rattle.std.specs.Prelude.{◌≡◌, ◌<◌, ◌≤◌, [], length};
ghost use Rattle.rm_val.specs.Val.{int};
ghost use Rattle.rm_model.specs.Counting.{Counting};
ghost use Rattle.rm_group.specs.declared.bounds.TheConstants.{MOST_FRAMES};
ghost use Rattle.rm_acts.specs.Buffers.{granted_for};
ghost use Rattle.rm_collect.specs.Passed.{passed};
ghost use Rattle.rm_capture.specs.declared.buffer_row.TheConstants.{MOST_SLICE};
ghost use Rattle.rm_capture.specs.Captured.{HasKept, wraps};
ghost use Rattle.rm_capture.specs.InRange.{IsInRange, channel_kept, slice_kept};
ghost use Rattle.rm_capture.specs.Taking.{Takes, is_on_among};

use crate::buffer::Buffer;
use crate::buffer_row::BufferRow;
use rm_filter::Accepted;
use rm_group::Passing;
use rm_pool::Change;

impl Buffer {
    /// Begins the buffer of a row with these columns anew, at a moment in milliseconds, with no packets.
    pub fn restart(&mut self, columns: &BufferRow, now: u32)
        requires { IsInRange columns.now }
        ensures channel { self.new.channel ≡ channel_kept columns.now }
        ensures granted { self.new.granted ≡ granted_for (slice_kept columns.now) (int columns.now.requested) }
        ensures started { self.new.started ≡ now }
        ensures kept { (settings : Counting) → HasKept self.new.captured settings (wraps columns.now.full_action) (slice_kept columns.now)
            (granted_for (slice_kept columns.now) (int columns.now.requested)) [] }
        ensures accepted { self.new.captured.accepted ≡ 0 }
    {
        self.channel = columns.channel();
        self.granted = columns.granted();
        self.started = now;
        self.captured.begin(
            columns.full_action,
            self.granted as usize,
            columns.slice() as usize,
        );
    }

    /// Takes a frame that passes and that these channels accept: it is kept where the channel of this buffer is one of them, and on.
    pub fn take(&mut self, judged: &[Accepted], passing: &Passing<'_>)
        requires captured { length passing.now.octets.now ≤ MOST_SLICE }
        requires room { self.old.captured.accepted < MOST_FRAMES }
        ensures { Takes judged.now (passed passing.now.facts passing.now.octets.now passing.now.number passing.now.moment) self.old self.new }
    {
        if is_on(judged, self.channel) {
            self.captured.accept(passing);
        }
    }
}

// Whether a channel is one of those that accept a frame, and on.
fn is_on(judged: &[Accepted], channel: u32) -> bool
    ensures { result ≡ is_on_among judged.now channel }
{
    judged
        .iter()
        .any(|each| each.is_on && each.channel == channel)
}

/// A frame that passes, and the channels that accept it.
#[derive(Drop)]
pub(crate) struct JudgedFrame<'a> {
    /// The channels.
    pub judged: &'a [Accepted],
    /// The frame.
    pub passing: &'a Passing<'a>,
}

impl Change<Buffer> for JudgedFrame<'_> {
    ghost allows = { λ s row buffer. (length s.passing.now.octets.now ≤ MOST_SLICE) × (buffer.captured.accepted < MOST_FRAMES) };

    ghost makes = { λ s row buffer new. Takes s.judged.now (passed s.passing.now.facts s.passing.now.octets.now s.passing.now.number s.passing.now.moment) buffer new };

    fn change(&self, _row: u32, buffer: &mut Buffer) {
        buffer.take(self.judged, self.passing);
    }
}
