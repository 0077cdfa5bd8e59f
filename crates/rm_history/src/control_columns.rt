// The columns of a row of historyControl that can be set.
ghost use Rattle.std.specs.Prelude.{refl};
ghost use Rattle.rm_history.specs.ControlColumns.{control_rows};

use arrayvec::ArrayVec;
use rm_columns::{
    ControlRow, ControlSheet, MOST_OWNER, OneNumber, interface_in, interface_name, put_text,
    same_text, short_in,
};
use rm_group::TableObjects;
use rm_model::Setting::{Empty, Interface, Number};
use rm_model::{ColumnKind, StatusKind, column, numbers};
use rm_val::{Oid, Value};

/// The status column of historyControl.
pub const STATUS: u32 = 7;

/// The objects of historyControl.
pub(crate) const CONTROL_OBJECTS: TableObjects = TableObjects {
    entry: &[1, 3, 6, 1, 2, 1, 16, 2, 1, 1],
    columns: &[1, 2, 3, 4, 5, 6, 7],
};

/// historyControl (RFC 1757, section 5). Its data source, buckets requested, interval and owner can be set.
const TABLE: ControlSheet = ControlSheet {
    objects: CONTROL_OBJECTS,
    status: STATUS,
    kind: StatusKind::EntryStatus,
    most: 16,
    columns: &[
        column!(2, ColumnKind::Source, Interface(1)),
        column!(3, numbers!(1, 65535), Number(50)),
        column!(5, numbers!(1, 3600), Number(1800)),
        column!(6, ColumnKind::Text(127), Empty, always),
    ],
};

/// The columns of a row of historyControl that can be set (RFC 1757, section 5).
#[derive(Drop)]
pub struct ControlColumns {
    /// The number of the interface that historyControlDataSource names.
    pub source: u32,
    /// historyControlBucketsRequested, 1 to 65535.
    pub requested: u16,
    /// historyControlInterval in seconds, 1 to 3600.
    pub interval: u16,
    /// historyControlOwner.
    pub owner: ArrayVec<u8, MOST_OWNER>,
}

impl ControlRow for ControlColumns {
    type Keys = OneNumber;

    ghost form = { control_rows };

    ghost keyed = { (refl, refl) };

    fn table() -> ControlSheet {
        TABLE
    }

    fn blank(_index: u32) -> Self {
        ControlColumns {
            source: 1,
            requested: 50,
            interval: 1800,
            owner: ArrayVec::new(),
        }
    }

    fn put(&mut self, column: u32, value: &Value<'_>) {
        match column {
            2 => self.source = interface_in(value),
            3 => self.requested = short_in(value),
            5 => self.interval = short_in(value),
            6 => put_text(&mut self.owner, value),
            _ => {}
        }
    }

    fn show(&self, column: u32) -> Option<Value<'_>> {
        match column {
            2 => Some(Value::Name(interface_name(self.source))),
            3 => Some(Value::Int(i32::from(self.requested))),
            5 => Some(Value::Int(i32::from(self.interval))),
            6 => Some(Value::Octets(self.owner.as_slice())),
            _ => None,
        }
    }

    fn agree(&self) -> bool {
        true
    }

    fn bare(&self) -> Self {
        ControlColumns {
            source: self.source,
            requested: self.requested,
            interval: self.interval,
            owner: same_text(&self.owner),
        }
    }
}
