// The columns of a row of hostTopNControl that can be set.
ghost use Rattle.std.specs.Prelude.{refl};
ghost use Rattle.rm_topn.specs.ControlColumns.{control_rows};

use arrayvec::ArrayVec;
use rm_columns::{
    ControlRow, ControlSheet, MOST_OWNER, Numbered, OneNumber, number_in, put_text, same_text,
};
use rm_group::TableObjects;
use rm_model::Setting::{Empty, Number};
use rm_model::{ColumnKind, StatusKind, column, numbers};
use rm_report::RateBase;
use rm_val::{Oid, Value};

/// The status column of hostTopNControl.
pub(crate) const STATUS: u32 = 10;

/// The column TimeRemaining.
pub(crate) const TIME: u32 = 4;

/// The objects of hostTopNControl.
pub(crate) const CONTROL_OBJECTS: TableObjects = TableObjects {
    entry: &[1, 3, 6, 1, 2, 1, 16, 5, 1, 1],
    columns: &[1, 2, 3, 4, 5, 6, 7, 8, 9, 10],
};

/// hostTopNControl (RFC 1757, section 5). Its host row, rate base, time, size and owner can be set.
const TABLE: ControlSheet = ControlSheet {
    objects: CONTROL_OBJECTS,
    status: STATUS,
    kind: StatusKind::EntryStatus,
    most: 16,
    columns: &[
        column!(2, numbers!(1, 65535), Number(0), needed),
        column!(3, numbers!(1, 7), Number(1)),
        column!(4, numbers!(0, i32::MAX), Number(0), always),
        column!(6, numbers!(1, i32::MAX), Number(10)),
        column!(9, ColumnKind::Text(127), Empty, always),
    ],
};

/// The columns of a row of hostTopNControl that can be set (RFC 1757, section 5).
#[derive(Drop)]
pub(crate) struct ControlColumns {
    /// hostTopNHostIndex, 1 to 65535, if it was set: the row of hostControl whose hosts are reported.
    pub host_index: Option<i32>,
    /// hostTopNRateBase: the counter by which they are compared.
    pub base: RateBase,
    /// hostTopNTimeRemaining as it was set: for how many seconds a report runs.
    pub seconds: i32,
    /// hostTopNRequestedSize: how many hosts are asked for.
    pub requested: i32,
    /// hostTopNOwner.
    pub owner: ArrayVec<u8, MOST_OWNER>,
}

impl ControlRow for ControlColumns {
    type Keys = OneNumber;

    ghost form = { control_rows };

    ghost keyed = { (refl, refl) };

    fn table() -> ControlSheet {
        TABLE
    }

    fn blank(_index: u32) -> Self {
        ControlColumns {
            host_index: None,
            base: RateBase::InPkts,
            seconds: 0,
            requested: 10,
            owner: ArrayVec::new(),
        }
    }

    fn put(&mut self, column: u32, value: &Value<'_>) {
        match column {
            2 => self.host_index = Some(number_in(value)),
            3 => self.base = RateBase::given(value),
            4 => self.seconds = number_in(value),
            6 => self.requested = number_in(value),
            9 => put_text(&mut self.owner, value),
            _ => {}
        }
    }

    fn show(&self, column: u32) -> Option<Value<'_>> {
        match column {
            2 => Some(Value::Int(self.host_index?)),
            3 => Some(Value::Int(self.base.number())),
            4 => Some(Value::Int(self.seconds)),
            6 => Some(Value::Int(self.requested)),
            9 => Some(Value::Octets(self.owner.as_slice())),
            _ => None,
        }
    }

    fn agree(&self) -> bool {
        true
    }

    fn bare(&self) -> Self {
        ControlColumns {
            host_index: self.host_index,
            base: self.base,
            seconds: self.seconds,
            requested: self.requested,
            owner: same_text(&self.owner),
        }
    }
}
