// The packets that are shown.
ghost use Rattle.std.specs.Prelude.{◌≡◌, ◌≤◌};
ghost use Rattle.std.specs.Option.{option_copied};
ghost use Rattle.rm_val.specs.Val.{val_of};
ghost use Rattle.rm_val.specs.Spellable.{HasSpelling};
ghost use Rattle.rm_ring.specs.Kept.{stored};
ghost use Rattle.rm_capture.specs.PacketTable.{integer};
ghost use Rattle.rm_capture.specs.BufferShown.{data_shown, stored_shown, other_of, packet_value};

use crate::buffer::Buffer;
use crate::buffer_row::BufferRow;
use crate::captured::PacketInfo;
use rm_collect::RowColumns;
use rm_group::TableObjects;
use rm_model::Instance;
use rm_nested::{InnerCells, NumberedPart, NumberedRows, two_numbers};
use rm_pool::Pool;
use rm_ring::Packet;
use rm_val::Value;

/// The objects of captureBufferTable (RFC 1757, section 5): captureBufferControlIndex, captureBufferIndex, captureBufferPacketID,
/// captureBufferPacketData, captureBufferPacketLength, captureBufferPacketTime and captureBufferPacketStatus.
pub(crate) const PACKET_OBJECTS: TableObjects = TableObjects {
    entry: &[1, 3, 6, 1, 2, 1, 16, 8, 2, 1],
    columns: &[1, 2, 3, 4, 5, 6, 7],
};

/// The greatest number that an INTEGER shows.
const MOST_SHOWN: u32 = 2_147_483_647;

/// The packets that buffers keep, by the rows of the buffers and their numbers.
#[derive(Drop)]
#[derive_where(Clone, Copy)]
pub(crate) struct Packets<'a, R> {
    /// The rows of bufferControlTable.
    pub rows: &'a R,
    /// The buffers.
    pub buffers: &'a Pool<Buffer>,
}

impl NumberedPart for Buffer {
    ghost use Rattle.std.specs.Prelude.{refl};
    ghost use Rattle.rm_capture.specs.BufferShown.{shows};
    ghost use Rattle.rm_capture.specs.ShownLaws.{from_1};

    ghost is_shown = { shows };

    fn shows(&self, number: u32, _now: u32) -> bool {
        let oldest = self.captured.oldest();
        oldest <= number && ((number - oldest) as usize) < self.captured.len()
    }

    fn number_above(&self, number: u32, _now: u32) -> Option<u32> {
        let oldest = self.captured.oldest();
        let count = self.captured.len() as u32;
        if count == 0 || number >= oldest - 1 + count {
            return None;
        }
        Some(number.max(oldest - 1) + 1)
    }

    ghost from_1 = { from_1 };
}

impl<R: RowColumns<BufferRow>> NumberedRows for Packets<'_, R> {
    ghost use Rattle.std.specs.Prelude.{refl};
    ghost use Rattle.std.proofs.Math.Nat.{le-add_right};
    ghost use Rattle.rm_capture.specs.PacketTable.{packet_entry, packet_columns};

    type Part = Buffer;

    ghost parts = { λ s. s.buffers.now };

    ghost entry = { packet_entry };

    ghost columns = { packet_columns };

    ghost value_of = { λ s. packet_value (R.rows s.rows.now) };

    fn parts(&self) -> &Pool<Buffer> {
        self.buffers
    }

    fn table() -> TableObjects
        ensures entry { result.entry.now ≡ packet_entry }
        ensures columns { result.columns.now ≡ packet_columns }
    {
        PACKET_OBJECTS
    }

    ghost rising = { refl };

    ghost named = { refl };

    ghost fits = { le-add_right 13 115 };
}

impl<'a, R: RowColumns<BufferRow>> InnerCells<'a> for Packets<'a, R> {
    ghost use Rattle.rm_pool.specs.Pools.{AreNumbered};
    ghost use Rattle.rm_nested.specs.NumberedRows.{value_at};

    ghost shown = { λ s. value_at (packet_value (R.rows s.rows.now)) s.buffers.now };

    ghost can_show = { λ s. AreNumbered s.buffers.now };

    fn value(&self, at: &Instance, now: u32) -> Option<Value<'a>> {
        let (row, number) = two_numbers(&at.index)?;
        let buffer = self.buffers.get(row)?;
        if buffer.shows(number, now) {
            Some(show_packet(self.rows, row, buffer, number, at.column))
        } else {
            None
        }
    }
}

// What a column of a packet shows, by the rows, its buffer and its number. Null where it isn't kept.
fn show_packet<'a, R: RowColumns<BufferRow>>(
    rows: &R,
    row: u32,
    buffer: &'a Buffer,
    number: u32,
    column: u32,
) -> Value<'a>
    requires { row ≤ 65535 }
    ensures value { val_of result ≡ packet_value (R.rows rows.now) row buffer.entry.now number column }
    ensures spelling { HasSpelling (val_of result) }
{
    match buffer.captured.numbered(number) {
        Some(packet) => show(rows.columns(row), row, buffer.started, column, packet),
        None => Value::Null,
    }
}

// What a column of a packet shows, by the columns of its row and the moment at which its buffer became valid.
fn show<'a>(
    columns: Option<&BufferRow>,
    row: u32,
    started: u32,
    column: u32,
    packet: Packet<'a, PacketInfo>,
) -> Value<'a>
    requires { row ≤ 65535 }
    ensures value { val_of result ≡ stored_shown (option_copied columns.entry) row started column (stored packet.entry.info packet.entry.octets.now) }
    ensures spelling { HasSpelling (val_of result) }
{
    let info = packet.info;
    match column {
        1 => Value::Int(row as i32),
        2 => integer(info.number),
        3 => integer(info.id),
        4 => data(columns, packet.octets),
        5 => integer(info.length),
        6 => Value::Int(info.time_since(started) as i32),
        _ => Value::Int(i32::from(info.status)),
    }
}

// The octets of a packet that are shown, by the columns of its row.
fn data<'a>(columns: Option<&BufferRow>, octets: &'a [u8]) -> Value<'a>
    ensures value { val_of result ≡ data_shown (option_copied columns.entry) octets.entry.now }
    ensures spelling { HasSpelling (val_of result) }
{
    match columns {
        Some(columns) => Value::Octets(columns.downloaded(octets)),
        None => Value::Null,
    }
}

// A number as an INTEGER.
fn integer(number: u32) -> Value<'static>
    ensures value { val_of result ≡ integer number }
    ensures spelling { HasSpelling (val_of result) }
{
    Value::Int(number.min(MOST_SHOWN) as i32)
}

/// What a column of bufferControlTable beside the index shows that can't be set, by the buffer of a row, if it has one.
pub(crate) fn other_of(buffer: Option<&Buffer>, column: u32) -> Value<'static>
    ensures value { val_of result ≡ other_of column (option_copied buffer.entry) }
    ensures spelling { HasSpelling (val_of result) }
{
    let Some(buffer) = buffer else {
        return match column {
            3 => Value::Int(1),
            11 => Value::Ticks(0),
            _ => Value::Int(0),
        };
    };
    match column {
        3 => Value::Int(if buffer.captured.lost { 2 } else { 1 }),
        9 => Value::Int(buffer.granted as i32),
        11 => Value::Ticks(buffer.started / 10),
        _ => Value::Int(buffer.captured.len() as i32),
    }
}
