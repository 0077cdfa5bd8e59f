// A channel, as it is kept.
ghost use Rattle.std.specs.Prelude.{refl};

use crate::channel_row::ChannelRow;
use crate::data_control::DataControl;
use crate::event_status::EventStatus;
use rm_columns::{ControlRow, ControlSheet, OneNumber};
use rm_val::{Oid, Value};

/// A row of channelTable as it was set, and the present state of its channel.
#[derive(Drop)]
pub(crate) struct Channel {
    /// The columns that can be set, as they were set last.
    pub set: ChannelRow,
    /// channelDataControl, as it was set last or turned since.
    pub control: DataControl,
    /// channelEventStatus, as it was set last or spent since.
    pub status: EventStatus,
    /// channelMatches: how many packets it accepted since it became valid, modulo 2^32.
    pub matches: u32,
}

impl ControlRow for Channel {
    type Keys = OneNumber;

    ghost use Rattle.rm_filter.specs.ChannelForm.{channel_form};

    ghost form = { channel_form };

    ghost keyed = { (refl, refl) };

    fn table() -> ControlSheet {
        ChannelRow::table()
    }

    fn blank(index: u32) -> Self {
        Channel {
            set: ChannelRow::blank(index),
            control: DataControl::Off,
            status: EventStatus::Ready,
            matches: 0,
        }
    }

    fn put(&mut self, column: u32, value: &Value<'_>) {
        self.set.put(column, value);
        match column {
            4 => self.control = self.set.data_control,
            8 => self.status = self.set.event_status,
            _ => {}
        }
    }

    fn show(&self, column: u32) -> Option<Value<'_>> {
        self.set.show(column)
    }

    fn agree(&self) -> bool {
        self.set.agree()
    }

    fn bare(&self) -> Self {
        Channel {
            set: self.set.bare(),
            control: self.control,
            status: self.status,
            matches: 0,
        }
    }
}
