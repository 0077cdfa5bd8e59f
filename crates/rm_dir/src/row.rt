// A row of the directory.
ghost use Rattle.std.specs.Prelude.{◌≡◌, refl};
ghost use Rattle.rm_dir.specs.DirectoryRows.{directory_rows, support_at_first};
ghost use Rattle.rm_dir.specs.DirectoryIndex.{row_protocol};

use crate::built_in::is_countable;
use crate::keys::{DirectoryKeys, row_protocol};
use crate::support::Support;
use arrayvec::ArrayVec;
use rm_columns::{ControlRow, ControlSheet, MOST_OWNER, Numbered, put_text, same_text};
use rm_group::TableObjects;
use rm_model::Setting::{Empty, Number};
use rm_model::{ColumnKind, StatusKind, column, numbers};
use rm_val::Value;

/// How many octets a description has at most.
const MOST_DESCR: usize = 64;

/// The number of protocolDirStatus.
pub const STATUS: u32 = 10;

/// The objects of protocolDirTable.
pub(crate) const DIRECTORY_OBJECTS: TableObjects = TableObjects {
    entry: &[1, 3, 6, 1, 2, 1, 16, 11, 2, 1],
    columns: &[3, 4, 5, 6, 7, 8, 9, 10],
};

/// protocolDirTable (RFC 2021, section 6). Its description, its configurations for hosts and for matrices, and its owner can be set.
const TABLE: ControlSheet = ControlSheet {
    objects: DIRECTORY_OBJECTS,
    status: STATUS,
    kind: StatusKind::RowStatus,
    most: 32,
    columns: &[
        column!(4, ColumnKind::Text(64), Empty),
        column!(7, numbers!(2, 3), Number(3), always),
        column!(8, numbers!(2, 3), Number(3), always),
        column!(9, ColumnKind::Text(127), Empty, always),
    ],
};

/// A row of protocolDirTable: what can be set of it, and its local index.
#[derive(Drop)]
pub struct DirectoryRow {
    /// protocolDirDescr.
    pub descr: ArrayVec<u8, MOST_DESCR>,
    /// protocolDirHostConfig.
    pub host: Support,
    /// protocolDirMatrixConfig.
    pub matrix: Support,
    /// protocolDirOwner.
    pub owner: ArrayVec<u8, MOST_OWNER>,
    /// protocolDirLocalIndex, 0 before it is given.
    pub local: u32,
    /// The two configurations as they were before the last Set.
    pub host_before: Support,
    pub matrix_before: Support,
}

impl ControlRow for DirectoryRow {
    type Keys = DirectoryKeys;

    ghost form = { directory_rows };

    ghost keyed = { (refl, refl) };

    fn table() -> ControlSheet {
        TABLE
    }

    fn blank(index: u32) -> Self {
        let support = support_at_first(index);
        DirectoryRow {
            descr: ArrayVec::new(),
            host: support,
            matrix: support,
            owner: ArrayVec::new(),
            local: 0,
            host_before: support,
            matrix_before: support,
        }
    }

    fn put(&mut self, column: u32, value: &Value<'_>) {
        match column {
            4 => put_text(&mut self.descr, value),
            7 => self.host = Support::given(value),
            8 => self.matrix = Support::given(value),
            9 => put_text(&mut self.owner, value),
            _ => {}
        }
    }

    fn show(&self, column: u32) -> Option<Value<'_>> {
        match column {
            4 => Some(Value::Octets(self.descr.as_slice())),
            7 => Some(Value::Int(self.host.number())),
            8 => Some(Value::Int(self.matrix.number())),
            9 => Some(Value::Octets(self.owner.as_slice())),
            _ => None,
        }
    }

    fn agree(&self) -> bool {
        true
    }

    fn bare(&self) -> Self {
        DirectoryRow {
            descr: same_text(&self.descr),
            host: self.host,
            matrix: self.matrix,
            owner: same_text(&self.owner),
            local: 0,
            host_before: self.host,
            matrix_before: self.matrix,
        }
    }
}

// Whether tables count the protocol of a new row with that number.
fn support_at_first(number: u32) -> Support
    ensures { result ≡ support_at_first (row_protocol number) }
{
    match row_protocol(number) {
        Some(protocol) if !is_countable(protocol) => Support::NotSupported,
        _ => Support::SupportedOn,
    }
}
