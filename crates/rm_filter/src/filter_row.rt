// The columns of a row of filterTable.
ghost use Rattle.std.specs.Prelude.{◌≡◌, refl};

use arrayvec::ArrayVec;
use rm_columns::{
    ControlRow, ControlSheet, MOST_OWNER, OneNumber, natural, number_in, put_text, same_text,
};
use rm_group::TableObjects;
use rm_match::{PacketTest, StatusTest};
use rm_model::Setting::{Empty, Number};
use rm_model::{ColumnKind, StatusKind, column, numbers};
use rm_val::{Oid, Value};

/// How many octets the data of a filter and its masks have at most.
const MOST_DATA: usize = 128;

/// The number of filterStatus.
pub const FILTER_STATUS: u32 = 11;

/// The objects of filterTable.
pub(crate) const FILTER_OBJECTS: TableObjects = TableObjects {
    entry: &[1, 3, 6, 1, 2, 1, 16, 7, 1, 1],
    columns: &[1, 2, 3, 4, 5, 6, 7, 8, 9, 10, 11],
};

/// filterTable (RFC 1757, section 5)
const TABLE: ControlSheet = ControlSheet {
    objects: FILTER_OBJECTS,
    status: FILTER_STATUS,
    kind: StatusKind::EntryStatus,
    most: 16,
    columns: &[
        column!(2, numbers!(1, 65535), Number(0), needed),
        column!(3, numbers!(0, i32::MAX), Number(0)),
        column!(4, ColumnKind::Text(128), Empty),
        column!(5, ColumnKind::Text(128), Empty),
        column!(6, ColumnKind::Text(128), Empty),
        column!(7, numbers!(0, i32::MAX), Number(0)),
        column!(8, numbers!(0, i32::MAX), Number(0)),
        column!(9, numbers!(0, i32::MAX), Number(0)),
        column!(10, ColumnKind::Text(127), Empty, always),
    ],
};

/// The columns of a row of filterTable that can be set (RFC 1757, section 5).
#[derive(Drop)]
pub struct FilterRow {
    /// filterChannelIndex, if it was set.
    pub channel: Option<i32>,
    /// filterPktDataOffset
    pub offset: i32,
    /// filterPktData
    pub pkt_data: ArrayVec<u8, MOST_DATA>,
    /// filterPktDataMask
    pub mask: ArrayVec<u8, MOST_DATA>,
    /// filterPktDataNotMask
    pub not_mask: ArrayVec<u8, MOST_DATA>,
    /// filterPktStatus
    pub status: i32,
    /// filterPktStatusMask
    pub status_mask: i32,
    /// filterPktStatusNotMask
    pub status_not_mask: i32,
    /// filterOwner
    pub owner: ArrayVec<u8, MOST_OWNER>,
}

impl FilterRow {
    ghost use Rattle.rm_filter.specs.Matching.{IsPacketTest, channel_kept, status_test};

    /// The index of its channel, 0 until that was set.
    pub fn channel(&self) -> u32
        ensures { result ≡ channel_kept self.now }
    {
        natural(self.channel.unwrap_or(0))
    }

    /// What it wants of the octets of a packet.
    pub fn packet_test(&self) -> PacketTest<'_>
        ensures { IsPacketTest self.now result }
    {
        PacketTest {
            offset: natural(self.offset),
            data: self.pkt_data.as_slice(),
            mask: self.mask.as_slice(),
            not_mask: self.not_mask.as_slice(),
        }
    }

    /// What it wants of the status of a packet.
    pub fn status_test(&self) -> StatusTest
        ensures { result ≡ status_test self.now }
    {
        StatusTest {
            status: natural(self.status),
            mask: natural(self.status_mask),
            not_mask: natural(self.status_not_mask),
        }
    }
}

impl ControlRow for FilterRow {
    type Keys = OneNumber;

    ghost use Rattle.rm_filter.specs.FilterRows.{filter_rows};

    ghost form = { filter_rows };

    ghost keyed = { (refl, refl) };

    fn table() -> ControlSheet {
        TABLE
    }

    fn blank(_index: u32) -> Self {
        FilterRow {
            channel: None,
            offset: 0,
            pkt_data: ArrayVec::new(),
            mask: ArrayVec::new(),
            not_mask: ArrayVec::new(),
            status: 0,
            status_mask: 0,
            status_not_mask: 0,
            owner: ArrayVec::new(),
        }
    }

    fn put(&mut self, column: u32, value: &Value<'_>) {
        match column {
            2 => self.channel = Some(number_in(value)),
            3 => self.offset = number_in(value),
            4 => put_text(&mut self.pkt_data, value),
            5 => put_text(&mut self.mask, value),
            6 => put_text(&mut self.not_mask, value),
            7 => self.status = number_in(value),
            8 => self.status_mask = number_in(value),
            9 => self.status_not_mask = number_in(value),
            10 => put_text(&mut self.owner, value),
            _ => {}
        }
    }

    fn show(&self, column: u32) -> Option<Value<'_>> {
        match column {
            2 => Some(Value::Int(self.channel?)),
            3 => Some(Value::Int(self.offset)),
            4 => Some(Value::Octets(self.pkt_data.as_slice())),
            5 => Some(Value::Octets(self.mask.as_slice())),
            6 => Some(Value::Octets(self.not_mask.as_slice())),
            7 => Some(Value::Int(self.status)),
            8 => Some(Value::Int(self.status_mask)),
            9 => Some(Value::Int(self.status_not_mask)),
            10 => Some(Value::Octets(self.owner.as_slice())),
            _ => None,
        }
    }

    fn agree(&self) -> bool {
        true
    }

    fn bare(&self) -> Self {
        FilterRow {
            channel: self.channel,
            offset: self.offset,
            pkt_data: same_text(&self.pkt_data),
            mask: same_text(&self.mask),
            not_mask: same_text(&self.not_mask),
            status: self.status,
            status_mask: self.status_mask,
            status_not_mask: self.status_not_mask,
            owner: same_text(&self.owner),
        }
    }
}
