// The columns of a row of channelTable.
ghost use Rattle.std.specs.Prelude.{refl};
ghost use Rattle.rm_filter.specs.ChannelRows.{channel_rows};

use crate::accept_type::AcceptType;
use crate::data_control::DataControl;
use crate::event_status::EventStatus;
use arrayvec::ArrayVec;
use rm_columns::{
    ControlRow, ControlSheet, MOST_OWNER, Numbered, OneNumber, put_text, same_text, short_in,
};
use rm_group::TableObjects;
use rm_model::Setting::{Empty, Number};
use rm_model::{ColumnKind, INTERFACES, StatusKind, column, numbers};
use rm_val::{Oid, Value};

/// How many octets a text has at most.
const MOST_TEXT: usize = 127;

/// The number of channelStatus.
pub const CHANNEL_STATUS: u32 = 12;

/// The objects of channelTable.
pub(crate) const CHANNEL_OBJECTS: TableObjects = TableObjects {
    entry: &[1, 3, 6, 1, 2, 1, 16, 7, 2, 1],
    columns: &[1, 2, 3, 4, 5, 6, 7, 8, 9, 10, 11, 12],
};

/// channelTable (RFC 1757, section 5)
const TABLE: ControlSheet = ControlSheet {
    objects: CHANNEL_OBJECTS,
    status: CHANNEL_STATUS,
    kind: StatusKind::EntryStatus,
    most: 16,
    columns: &[
        column!(2, numbers!(1, INTERFACES as i32), Number(1)),
        column!(3, numbers!(1, 2), Number(1)),
        column!(4, numbers!(1, 2), Number(2), always),
        column!(5, numbers!(0, 65535), Number(0)),
        column!(6, numbers!(0, 65535), Number(0)),
        column!(7, numbers!(0, 65535), Number(0)),
        column!(8, numbers!(1, 3), Number(1), always),
        column!(10, ColumnKind::Text(127), Empty),
        column!(11, ColumnKind::Text(127), Empty, always),
    ],
};

/// The columns of a row of channelTable that can be set, as they were set last (RFC 1757, section 5).
#[derive(Drop)]
pub struct ChannelRow {
    /// channelIfIndex
    pub interface: u16,
    /// channelAcceptType
    pub accept_type: AcceptType,
    /// channelDataControl
    pub data_control: DataControl,
    /// channelTurnOnEventIndex, 0 for none
    pub turn_on_event: u16,
    /// channelTurnOffEventIndex, 0 for none
    pub turn_off_event: u16,
    /// channelEventIndex, 0 for none
    pub event: u16,
    /// channelEventStatus
    pub event_status: EventStatus,
    /// channelDescription
    pub description: ArrayVec<u8, MOST_TEXT>,
    /// channelOwner
    pub owner: ArrayVec<u8, MOST_OWNER>,
}

impl ControlRow for ChannelRow {
    type Keys = OneNumber;

    ghost form = { channel_rows };

    ghost keyed = { (refl, refl) };

    fn table() -> ControlSheet {
        TABLE
    }

    fn blank(_index: u32) -> Self {
        ChannelRow {
            interface: 1,
            accept_type: AcceptType::Matched,
            data_control: DataControl::Off,
            turn_on_event: 0,
            turn_off_event: 0,
            event: 0,
            event_status: EventStatus::Ready,
            description: ArrayVec::new(),
            owner: ArrayVec::new(),
        }
    }

    fn put(&mut self, column: u32, value: &Value<'_>) {
        match column {
            2 => self.interface = short_in(value),
            3 => self.accept_type = AcceptType::given(value),
            4 => self.data_control = DataControl::given(value),
            5 => self.turn_on_event = short_in(value),
            6 => self.turn_off_event = short_in(value),
            7 => self.event = short_in(value),
            8 => self.event_status = EventStatus::given(value),
            10 => put_text(&mut self.description, value),
            11 => put_text(&mut self.owner, value),
            _ => {}
        }
    }

    fn show(&self, column: u32) -> Option<Value<'_>> {
        match column {
            2 => Some(Value::Int(i32::from(self.interface))),
            3 => Some(Value::Int(self.accept_type.number())),
            4 => Some(Value::Int(self.data_control.number())),
            5 => Some(Value::Int(i32::from(self.turn_on_event))),
            6 => Some(Value::Int(i32::from(self.turn_off_event))),
            7 => Some(Value::Int(i32::from(self.event))),
            8 => Some(Value::Int(self.event_status.number())),
            10 => Some(Value::Octets(self.description.as_slice())),
            11 => Some(Value::Octets(self.owner.as_slice())),
            _ => None,
        }
    }

    fn agree(&self) -> bool {
        true
    }

    fn bare(&self) -> Self {
        ChannelRow {
            interface: self.interface,
            accept_type: self.accept_type,
            data_control: self.data_control,
            turn_on_event: self.turn_on_event,
            turn_off_event: self.turn_off_event,
            event: self.event,
            event_status: self.event_status,
            description: same_text(&self.description),
            owner: same_text(&self.owner),
        }
    }
}
