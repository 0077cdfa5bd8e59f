// The entries of logs.
ghost use Rattle.std.specs.Prelude.{◌≡◌};
ghost use Rattle.rm_val.specs.Val.{val_of};
ghost use Rattle.rm_val.specs.Spellable.{HasSpelling};
ghost use Rattle.rm_event.specs.Shown.{description_in};

use crate::event_row::EventRow;
use crate::log::Log;
use rm_group::TableObjects;
use rm_nested::{NumberedCells, NumberedRows};
use rm_pool::Pool;
use rm_status::Controls;
use rm_val::Value;

/// The objects of logTable (RFC 1757, section 5): logEventIndex, logIndex, logTime and logDescription.
pub(crate) const LOG_OBJECTS: TableObjects = TableObjects {
    entry: &[1, 3, 6, 1, 2, 1, 16, 9, 2, 1],
    columns: &[1, 2, 3, 4],
};

/// The entries that logs show, by the events of the logs and their numbers.
#[derive(Clone, Copy, Drop)]
pub(crate) struct Entries<'a> {
    /// The rows of eventTable.
    pub rows: &'a Controls<EventRow>,
    /// The logs.
    pub logs: &'a Pool<Log>,
}

impl NumberedRows for Entries<'_> {
    ghost use Rattle.std.specs.Prelude.{refl};
    ghost use Rattle.std.proofs.Math.Nat.{le-add_right};
    ghost use Rattle.rm_event.specs.Columns.{log_columns};
    ghost use Rattle.rm_event.specs.Tables.{log_entry};
    ghost use Rattle.rm_event.specs.Shown.{entry_value};

    type Part = Log;

    ghost parts = { λ s. s.logs.now };

    ghost entry = { log_entry };

    ghost columns = { log_columns };

    ghost value_of = { λ s. entry_value s.rows.now };

    fn parts(&self) -> &Pool<Log> {
        self.logs
    }

    fn table() -> TableObjects
        ensures entry { result.entry.now ≡ log_entry }
        ensures columns { result.columns.now ≡ log_columns }
    {
        LOG_OBJECTS
    }

    ghost rising = { refl };

    ghost named = { refl };

    ghost fits = { le-add_right 13 115 };
}

impl<'a> NumberedCells<'a> for Entries<'a> {
    fn show(&self, event: u32, log: &Log, number: u32, column: u32, _now: u32) -> Value<'a> {
        match column {
            1 => Value::Int(event as i32),
            2 => Value::Int(number as i32),
            3 => Value::Ticks(log.time(number)),
            _ => description(self.rows, event),
        }
    }
}

// The description of an event, Null where there is no row of it.
fn description(rows: &Controls<EventRow>, event: u32) -> Value<'_>
    ensures value { val_of result ≡ description_in rows.now event }
    ensures spelling { HasSpelling (val_of result) }
{
    match rows.get(event) {
        Some(row) => Value::Octets(row.description.as_slice()),
        None => Value::Null,
    }
}
