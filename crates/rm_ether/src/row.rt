// A row of etherStats.
ghost use Rattle.std.specs.Prelude.{◌≡◌, refl};

use crate::statistics::Statistics;
use arrayvec::ArrayVec;
use rm_columns::{
    ControlRow, ControlSheet, MOST_OWNER, OneNumber, interface_in, interface_name, put_text,
    same_text,
};
use rm_group::TableObjects;
use rm_model::Setting::{Empty, Interface};
use rm_model::{ColumnKind, StatusKind, column};
use rm_val::{Oid, Value};

/// The number of etherStatsStatus.
pub(crate) const STATUS: u32 = 21;

/// The objects of etherStats.
pub(crate) const ETHER_OBJECTS: TableObjects = TableObjects {
    entry: &[1, 3, 6, 1, 2, 1, 16, 1, 1, 1],
    columns: &[
        1, 2, 3, 4, 5, 6, 7, 8, 9, 10, 11, 12, 13, 14, 15, 16, 17, 18, 19, 20, 21,
    ],
};

/// etherStats (RFC 1757, section 5). Its data source and its owner can be set.
const TABLE: ControlSheet = ControlSheet {
    objects: ETHER_OBJECTS,
    status: STATUS,
    kind: StatusKind::EntryStatus,
    most: 16,
    columns: &[
        column!(2, ColumnKind::Source, Interface(1)),
        column!(20, ColumnKind::Text(127), Empty, always),
    ],
};

/// The columns of a row of etherStats, with what it counted since it became valid.
#[derive(Drop)]
pub struct StatisticsRow {
    /// The number of the interface whose frames the row counts.
    pub source: u32,
    /// Who owns the row.
    pub owner: ArrayVec<u8, MOST_OWNER>,
    /// What it counted.
    pub statistics: Statistics,
}

impl StatisticsRow {
    ghost use Rattle.rm_ether.specs.StatisticsRows.{monitor_row};

    /// The row of the monitor that counts the frames of an interface.
    pub fn of_monitor(interface: u32) -> StatisticsRow
        ensures { result ≡ monitor_row interface }
    {
        let mut row = StatisticsRow::blank(interface);
        row.source = interface;
        row.owner.try_extend_from_slice(b"monitor").unwrap();
        row
    }
}

impl ControlRow for StatisticsRow {
    type Keys = OneNumber;

    ghost use Rattle.rm_ether.specs.StatisticsRows.{statistics_rows};

    ghost form = { statistics_rows };

    ghost keyed = { (refl, refl) };

    fn table() -> ControlSheet {
        TABLE
    }

    fn blank(_index: u32) -> Self {
        StatisticsRow {
            source: 1,
            owner: ArrayVec::new(),
            statistics: Statistics::new(),
        }
    }

    fn put(&mut self, column: u32, value: &Value<'_>) {
        match column {
            2 => self.source = interface_in(value),
            20 => put_text(&mut self.owner, value),
            _ => {}
        }
    }

    fn show(&self, column: u32) -> Option<Value<'_>> {
        match column {
            2 => Some(Value::Name(interface_name(self.source))),
            20 => Some(Value::Octets(self.owner.as_slice())),
            _ => None,
        }
    }

    fn agree(&self) -> bool {
        true
    }

    fn bare(&self) -> Self {
        StatisticsRow {
            source: self.source,
            owner: same_text(&self.owner),
            statistics: Statistics::new(),
        }
    }
}
