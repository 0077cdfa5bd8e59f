// The group event.
ghost use Rattle.rm_pool.specs.Pools.{IsOfValid};
ghost use Rattle.rm_event.specs.Held.{of_valid_prop};

use crate::event_row::EventRow;
use crate::log::Log;
use rm_pool::Pool;
use rm_status::Controls;

/// The events of the probe, and what they logged: eventTable and logTable (RFC 1757, section 5). Each valid row
/// has a log.
#[derive(Drop)]
pub struct Events {
    pub(crate) rows: Controls<EventRow>,
    pub(crate) logs: Pool<Log>,
    ghost of_valid: { IsOfValid logs rows } by { of_valid_prop logs rows },
}
