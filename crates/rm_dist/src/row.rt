// A row of protocolDistControl.
ghost use Rattle.std.specs.Prelude.{refl};
ghost use Rattle.rm_dist.specs.ControlColumns.{control_rows};

use crate::counts::Counts;
use arrayvec::ArrayVec;
use rm_columns::{
    ControlRow, ControlSheet, MOST_OWNER, OneNumber, interface_in, interface_name, put_text,
    same_text,
};
use rm_group::TableObjects;
use rm_model::Setting::{Empty, Interface};
use rm_model::{ColumnKind, StatusKind, column};
use rm_val::{Oid, Value};

/// The number of protocolDistControlStatus.
const STATUS: u32 = 6;

/// The objects of protocolDistControl.
pub(crate) const CONTROL_OBJECTS: TableObjects = TableObjects {
    entry: &[1, 3, 6, 1, 2, 1, 16, 12, 1, 1],
    columns: &[2, 3, 4, 5, 6],
};

/// protocolDistControl (RFC 2021, section 6). Its data source and its owner can be set.
const TABLE: ControlSheet = ControlSheet {
    objects: CONTROL_OBJECTS,
    status: STATUS,
    kind: StatusKind::RowStatus,
    most: 16,
    columns: &[
        column!(2, ColumnKind::Source, Interface(1)),
        column!(5, ColumnKind::Text(127), Empty, always),
    ],
};

/// What a row has counted since it became active.
#[derive(Drop)]
pub struct Tally {
    /// The moment at which it became active, in milliseconds.
    pub since: u32,
    /// What it has counted of each protocol.
    pub counts: Counts,
}

/// A row of protocolDistControl: what was set of it, and what it has counted while it is active.
#[derive(Drop)]
pub struct DistributionRow {
    /// The number of the interface whose frames the row counts.
    pub source: u32,
    /// Who owns the row.
    pub owner: ArrayVec<u8, MOST_OWNER>,
    /// What it has counted, where it is active.
    pub tally: Option<Tally>,
}

impl ControlRow for DistributionRow {
    type Keys = OneNumber;

    ghost form = { control_rows };

    ghost keyed = { (refl, refl) };

    fn table() -> ControlSheet {
        TABLE
    }

    fn blank(_index: u32) -> Self {
        DistributionRow {
            source: 1,
            owner: ArrayVec::new(),
            tally: None,
        }
    }

    fn put(&mut self, column: u32, value: &Value<'_>) {
        match column {
            2 => self.source = interface_in(value),
            5 => put_text(&mut self.owner, value),
            _ => {}
        }
    }

    fn show(&self, column: u32) -> Option<Value<'_>> {
        match column {
            2 => Some(Value::Name(interface_name(self.source))),
            5 => Some(Value::Octets(self.owner.as_slice())),
            _ => None,
        }
    }

    fn agree(&self) -> bool {
        true
    }

    fn bare(&self) -> Self {
        DistributionRow {
            source: self.source,
            owner: same_text(&self.owner),
            tally: None,
        }
    }
}
