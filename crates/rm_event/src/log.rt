// The log of an event.
ghost use Rattle.std.specs.Prelude.{◌≡◌, ◌≤◌};
ghost use Rattle.rm_event.specs.declared.log.TheConstants.{MOST_ENTRIES, MOST_SHOWN};

use crate::event_type::EventType;
use circular_buffer::HeapCircularBuffer;
use rm_nested::NumberedPart;
use rm_pool::{Begin, Part};
use rm_val::NoMemory;
use std::alloc::Global;

/// The greatest number of an entry.
pub const MOST_ENTRIES: u32 = 2_147_483_647;

/// How many entries are shown at most.
pub const MOST_SHOWN: u32 = 32;

/// What is kept of the firings of an event: the last entries of its log, which are numbered from 1. Times are ticks, in
/// hundredths of a second.
#[derive(Drop)]
pub struct Log {
    /// When the event fired last, 0 before it did.
    pub sent: u32,
    /// How many entries were added.
    pub added: u32,
    /// The times of the last entries, the newest first.
    pub ring: HeapCircularBuffer<u32>,
    ghost room: { ring.capacity ≡ MOST_SHOWN },
    ghost fewer: { added ≤ MOST_ENTRIES },
}

impl Log {
    ghost use Rattle.rm_event.specs.Log.{IsNew, HasFired, kept_time};

    /// Begins the log anew, with no entry.
    pub fn begin(&mut self)
        ensures { IsNew self.new }
    {
        self.ring.clear();
        self.sent = 0;
        self.added = 0;
    }

    /// Notes that the event, which is of that type, fires at a moment in milliseconds.
    pub fn fire(&mut self, event_type: EventType, moment: u32)
        ensures { HasFired event_type moment self.old self.new }
    {
        let tick = moment / 10;
        self.sent = tick;
        if event_type.is_logged() && self.added < MOST_ENTRIES {
            self.ring.push_front(tick);
            self.added += 1;
        }
    }

    /// The time of the entry with that number, 0 where it isn't kept.
    pub fn time(&self, number: u32) -> u32
        ensures { result ≡ kept_time self.now number }
    {
        let newer = self.added.saturating_sub(number);
        match self.ring.nth_front(newer as usize) {
            Some(tick) => *tick,
            None => 0,
        }
    }
}

impl Part for Log {
    fn spare(alloc: Global) -> Result<Log, NoMemory> {
        let ring = HeapCircularBuffer::with_capacity(alloc, MOST_SHOWN as usize);
        Ok(Log {
            sent: 0,
            added: 0,
            ring: ring.map_err(|_| NoMemory)?,
        })
    }
}

impl NumberedPart for Log {
    ghost use Rattle.std.specs.Prelude.{refl};
    ghost use Rattle.rm_event.specs.Shown.{shows};

    ghost is_shown = { shows };

    fn shows(&self, number: u32, _now: u32) -> bool {
        1 <= number && number <= self.added && self.added < number + MOST_SHOWN
    }

    fn number_above(&self, number: u32, _now: u32) -> Option<u32> {
        if number >= self.added {
            return None;
        }
        Some(number.max(self.added.saturating_sub(MOST_SHOWN)) + 1)
    }

    ghost from_1 = { λ log now. refl };
}

/// How the log of an event begins: with no entry.
#[derive(Drop)]
pub(crate) struct NoEntries;

impl Begin<Log> for NoEntries {
    ghost use Rattle.rm_event.specs.Log.{IsNew};

    ghost begun = { λ s row log. IsNew log };

    fn begin(&self, _row: u32, log: &mut Log) {
        log.begin();
    }
}
