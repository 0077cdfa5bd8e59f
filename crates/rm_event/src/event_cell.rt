// What the columns of eventTable show that can't be set.
ghost use Rattle.std.specs.Prelude.{◌≡◌};
ghost use Rattle.rm_event.specs.Shown.{sent_in, kept_other};

use crate::event_row::EventRow;
use crate::log::Log;
use rm_pool::Pool;
use rm_status::{OtherColumns, Row};
use rm_val::Value;

/// eventLastTimeSent, by the logs.
#[derive(Clone, Copy)]
pub(crate) struct Sent<'a> {
    /// The logs.
    pub logs: &'a Pool<Log>,
}

impl OtherColumns<EventRow> for Sent<'_> {
    ghost others = { λ s rows. kept_other s.logs.now };

    fn other(&self, index: u32, _row: &Row<EventRow>, _column: u32) -> Value<'static> {
        Value::Ticks(last_sent(self.logs, index))
    }
}

// When the event of a row fired last, 0 where it has no log.
fn last_sent(logs: &Pool<Log>, index: u32) -> u32
    ensures { result ≡ sent_in logs.now index }
{
    match logs.get(index) {
        Some(log) => log.sent,
        None => 0,
    }
}
