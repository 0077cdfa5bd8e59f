// What the rows of bufferControlTable collect.

use crate::buffer::Buffer;
use crate::buffer_row::{BUFFER_OBJECTS, BufferRow};
use crate::packets::{PACKET_OBJECTS, Packets, other_of};
use crate::taking::JudgedFrame;
use rm_collect::{ByItself, Collected, Collecting, RowColumns, SampledTables};
use rm_filter::Accepted;
use rm_group::{Assigns, Passing, TableObjects, judge_read_only};
use rm_model::Verdict;
use rm_nested::{InnerTable, inner_cell, next_inner_cell};
use rm_pool::Pool;
use rm_status::{Controls, Row};
use rm_val::{Oid, Value};

/// The capture buffers: bufferControlTable and captureBufferTable (RFC 1757, section 5). A valid row of bufferControl has the storage
/// of its packets; other storage may be spare.
pub type Buffers = Collecting<Buffer>;

/// captureBufferTable, as it is shown.
type Shown<'a> = Packets<'a, Controls<BufferRow>>;

/// The tables, the control table first.
const OBJECTS: &[TableObjects] = &[BUFFER_OBJECTS, PACKET_OBJECTS];

#[tactic(auto, unfolding(crate::specs::Collection::buffer_collection))]
impl Collected for Buffer {
    ghost use Rattle.rm_capture.specs.Collection.{buffer_collection};
    ghost use Rattle.rm_capture.specs.Lawful.{buffer_lawful};

    type Columns = BufferRow;

    type Shared = ();

    type Judged = Accepted;

    ghost collection = { buffer_collection };

    fn begin(&mut self, columns: &BufferRow, _shared: &(), now: u32) {
        self.restart(columns, now);
    }

    fn pass(buffers: &mut Pool<Buffer>, judged: &[Accepted], passing: &Passing<'_>, _before: u32) {
        buffers.change_each(&JudgedFrame { judged, passing });
    }

    fn other(
        buffers: &Pool<Buffer>,
        index: u32,
        _row: &Row<BufferRow>,
        column: u32,
    ) -> Value<'static> {
        other_of(buffers.get(index), column)
    }

    fn inner_cell<'a, R: RowColumns<BufferRow>>(
        rows: &'a R,
        buffers: &'a Pool<Buffer>,
        name: &Oid,
        now: u32,
    ) -> Option<Value<'a>> {
        inner_cell(&Packets { rows, buffers }, name, now)
    }

    fn inner_after<'a, R: RowColumns<BufferRow>>(
        rows: &'a R,
        buffers: &'a Pool<Buffer>,
        name: &Oid,
        now: u32,
        out: &mut Oid,
    ) -> Option<Value<'a>> {
        next_inner_cell(Packets { rows, buffers }, name, now, out)
    }

    fn inner_least() -> &'static [u32] {
        PACKET_OBJECTS.entry
    }

    fn sampled_tables() -> SampledTables {
        SampledTables::ControlTable
    }

    fn judge_inner<A: Assigns>(set: &A) -> Verdict {
        judge_read_only(set, &Shown::entry(), Shown::columns())
    }

    fn tables() -> &'static [TableObjects] {
        OBJECTS
    }

    fn least() -> &'static [u32] {
        BUFFER_OBJECTS.entry
    }

    ghost laws = { buffer_lawful };

    ghost spelled = { λ columns. tt };
}

impl ByItself for Buffer {
    ghost use Rattle.rm_capture.specs.Lawful.{by_itself};

    ghost by_itself = { by_itself };
}
