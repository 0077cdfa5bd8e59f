// The columns of a row of eventTable.
ghost use Rattle.std.specs.Prelude.{refl};
ghost use Rattle.rm_event.specs.EventRows.{event_rows};

use crate::event_type::EventType;
use arrayvec::ArrayVec;
use rm_columns::{ControlRow, ControlSheet, MOST_OWNER, Numbered, OneNumber, put_text, same_text};
use rm_group::TableObjects;
use rm_model::Setting::{Empty, Number};
use rm_model::{ColumnKind, StatusKind, column, numbers};
use rm_val::{Oid, Value};

/// How many octets a text has at most.
const MOST_TEXT: usize = 127;

/// The number of eventStatus.
pub const EVENT_STATUS: u32 = 7;

/// The objects of eventTable.
pub(crate) const EVENT_OBJECTS: TableObjects = TableObjects {
    entry: &[1, 3, 6, 1, 2, 1, 16, 9, 1, 1],
    columns: &[1, 2, 3, 4, 5, 6, 7],
};

/// eventTable (RFC 1757, section 5). Its descriptions, types, communities and owners can be set.
const TABLE: ControlSheet = ControlSheet {
    objects: EVENT_OBJECTS,
    status: EVENT_STATUS,
    kind: StatusKind::EntryStatus,
    most: 16,
    columns: &[
        column!(2, ColumnKind::Text(127), Empty),
        column!(3, numbers!(1, 4), Number(1)),
        column!(4, ColumnKind::Text(127), Empty),
        column!(6, ColumnKind::Text(127), Empty, always),
    ],
};

/// The columns of a row of eventTable that can be set (RFC 1757, section 5).
#[derive(Drop)]
pub struct EventRow {
    /// eventDescription
    pub description: ArrayVec<u8, MOST_TEXT>,
    /// eventType
    pub event_type: EventType,
    /// eventCommunity
    pub community: ArrayVec<u8, MOST_TEXT>,
    /// eventOwner
    pub owner: ArrayVec<u8, MOST_OWNER>,
}

impl ControlRow for EventRow {
    type Keys = OneNumber;

    ghost form = { event_rows };

    ghost keyed = { (refl, refl) };

    fn table() -> ControlSheet {
        TABLE
    }

    fn blank(_index: u32) -> Self {
        EventRow {
            description: ArrayVec::new(),
            event_type: EventType::None,
            community: ArrayVec::new(),
            owner: ArrayVec::new(),
        }
    }

    fn put(&mut self, column: u32, value: &Value<'_>) {
        match column {
            2 => put_text(&mut self.description, value),
            3 => self.event_type = EventType::given(value),
            4 => put_text(&mut self.community, value),
            6 => put_text(&mut self.owner, value),
            _ => {}
        }
    }

    fn show(&self, column: u32) -> Option<Value<'_>> {
        match column {
            2 => Some(Value::Octets(self.description.as_slice())),
            3 => Some(Value::Int(self.event_type.number())),
            4 => Some(Value::Octets(self.community.as_slice())),
            6 => Some(Value::Octets(self.owner.as_slice())),
            _ => None,
        }
    }

    fn agree(&self) -> bool {
        true
    }

    fn bare(&self) -> Self {
        EventRow {
            description: same_text(&self.description),
            event_type: self.event_type,
            community: same_text(&self.community),
            owner: same_text(&self.owner),
        }
    }
}
