// Readings that a Set is judged by.
ghost use Rattle.rm_model.specs.Readings.{nothing_read};

use rm_group::Look;
use rm_model::Reading;
use rm_val::Oid;

/// No variable can be read. The group of alarms looks at the group that they watch, and no other asks for a reading.
pub(crate) struct Unread;

impl Look for Unread {
    ghost readings = { λ look now. nothing_read };

    fn reading(&self, _name: &Oid, _now: u32) -> Option<Reading> {
        None
    }
}
