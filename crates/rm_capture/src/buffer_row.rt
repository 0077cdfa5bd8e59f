// The columns of a row of bufferControlTable.
ghost use Rattle.std.specs.Prelude.{◌≡◌, ◌<◌, ◌^◌, refl};
ghost use Rattle.rm_val.specs.Val.{int};
ghost use Rattle.rm_val.specs.Contents.{natural_in};
ghost use Rattle.rm_acts.specs.Buffers.{all_or, granted_for};
ghost use Rattle.rm_capture.specs.Downloads.{downloaded};
ghost use Rattle.rm_capture.specs.InRange.{channel_kept};

use crate::full_action::FullAction;
use arrayvec::ArrayVec;
use rm_columns::{
    ControlRow, ControlSheet, MOST_OWNER, Numbered, OneNumber, natural, number_in, put_text,
    same_text,
};
use rm_group::TableObjects;
use rm_model::Setting::{Empty, Number};
use rm_model::{ColumnKind, StatusKind, column, numbers};
use rm_val::{Oid, Value};

/// How many octets a packet has at most.
pub const MOST_SLICE: u32 = 262_144;

/// How many octets are granted at most.
pub const MOST_GRANTED: u32 = 1_048_576;

/// What a packet costs beside its octets.
const PLACE_COST: u32 = 32;

/// The number of bufferControlStatus.
pub const BUFFER_STATUS: u32 = 13;

/// The objects of bufferControlTable.
pub(crate) const BUFFER_OBJECTS: TableObjects = TableObjects {
    entry: &[1, 3, 6, 1, 2, 1, 16, 8, 1, 1],
    columns: &[1, 2, 3, 4, 5, 6, 7, 8, 9, 10, 11, 12, 13],
};

/// bufferControlTable (RFC 1757, section 5)
const TABLE: ControlSheet = ControlSheet {
    objects: BUFFER_OBJECTS,
    status: BUFFER_STATUS,
    kind: StatusKind::EntryStatus,
    most: 16,
    columns: &[
        column!(2, numbers!(1, 65535), Number(0), needed),
        column!(4, numbers!(1, 2), Number(1)),
        column!(5, numbers!(0, 262144), Number(100)),
        column!(6, numbers!(0, 262144), Number(100), always),
        column!(7, numbers!(0, i32::MAX), Number(0), always),
        column!(8, numbers!(-1, i32::MAX), Number(-1)),
        column!(12, ColumnKind::Text(127), Empty, always),
    ],
};

/// The columns of a row of bufferControlTable that can be set (RFC 1757, section 5).
#[derive(Drop)]
pub struct BufferRow {
    /// bufferControlChannelIndex, if it was set.
    pub channel: Option<i32>,
    /// bufferControlFullAction
    pub full_action: FullAction,
    /// bufferControlCaptureSliceSize, in octets, 0 for all of a packet.
    pub slice_size: i32,
    /// bufferControlDownloadSliceSize, in octets, 0 for all that is stored.
    pub download_slice_size: i32,
    /// bufferControlDownloadOffset, in octets.
    pub download_offset: i32,
    /// bufferControlMaxOctetsRequested, -1 for as many as can be.
    pub requested: i32,
    /// bufferControlOwner
    pub owner: ArrayVec<u8, MOST_OWNER>,
}

impl BufferRow {
    /// bufferControlChannelIndex, 0 until that was set.
    pub fn channel(&self) -> u32
        ensures { result ≡ channel_kept self.now }
    {
        natural(self.channel.unwrap_or(0))
    }

    /// How many octets of a packet are stored at most.
    pub fn slice(&self) -> u32
        ensures value { result ≡ all_or MOST_SLICE (natural_in (int self.now.slice_size)) }
        ensures small { result < 2 ^ 31 }
    {
        match u32::try_from(self.slice_size) {
            Ok(0) | Err(_) => MOST_SLICE,
            Ok(size) => size,
        }
    }

    /// bufferControlMaxOctetsGranted: as many octets as are requested, but room for one packet, and no more than can be.
    pub fn granted(&self) -> u32
        ensures { result ≡ granted_for (natural_in (int self.now.slice_size)) (int self.now.requested) }
    {
        match u32::try_from(self.requested) {
            Ok(requested) => requested.min(MOST_GRANTED).max(self.slice() + PLACE_COST),
            Err(_) => MOST_GRANTED,
        }
    }
}

impl BufferRow {
    /// captureBufferPacketData: the octets of a packet that are stored, from bufferControlDownloadOffset on, and at most as many as
    /// bufferControlDownloadSliceSize has, or all where that is 0.
    pub fn downloaded<'a>(&self, stored: &'a [u8]) -> &'a [u8]
        ensures { result.now ≡ downloaded (natural_in (int self.now.download_offset)) (natural_in (int self.now.download_slice_size)) stored.entry.now }
    {
        let Some(behind) = stored.get(natural(self.download_offset) as usize..) else {
            return &[];
        };
        match natural(self.download_slice_size) as usize {
            0 => behind,
            size => &behind[..size.min(behind.len())],
        }
    }
}

impl ControlRow for BufferRow {
    type Keys = OneNumber;

    ghost use Rattle.rm_capture.specs.BufferRows.{buffer_rows};

    ghost form = { buffer_rows };

    ghost keyed = { (refl, refl) };

    fn table() -> ControlSheet {
        TABLE
    }

    fn blank(_index: u32) -> Self {
        BufferRow {
            channel: None,
            full_action: FullAction::Lock,
            slice_size: 100,
            download_slice_size: 100,
            download_offset: 0,
            requested: -1,
            owner: ArrayVec::new(),
        }
    }

    fn put(&mut self, column: u32, value: &Value<'_>) {
        match column {
            2 => self.channel = Some(number_in(value)),
            4 => self.full_action = FullAction::given(value),
            5 => self.slice_size = number_in(value),
            6 => self.download_slice_size = number_in(value),
            7 => self.download_offset = number_in(value),
            8 => self.requested = number_in(value),
            12 => put_text(&mut self.owner, value),
            _ => {}
        }
    }

    fn show(&self, column: u32) -> Option<Value<'_>> {
        match column {
            2 => Some(Value::Int(self.channel?)),
            4 => Some(Value::Int(self.full_action.number())),
            5 => Some(Value::Int(self.slice_size)),
            6 => Some(Value::Int(self.download_slice_size)),
            7 => Some(Value::Int(self.download_offset)),
            8 => Some(Value::Int(self.requested)),
            12 => Some(Value::Octets(self.owner.as_slice())),
            _ => None,
        }
    }

    fn agree(&self) -> bool {
        true
    }

    fn bare(&self) -> Self {
        BufferRow {
            channel: self.channel,
            full_action: self.full_action,
            slice_size: self.slice_size,
            download_slice_size: self.download_slice_size,
            download_offset: self.download_offset,
            requested: self.requested,
            owner: same_text(&self.owner),
        }
    }
}
