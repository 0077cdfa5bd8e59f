// The columns of control tables whose rows ask for what frames of a data source enter.
ghost use Rattle.std.specs.Prelude.{◌≡◌};
ghost use Rattle.rm_keyed.specs.SourceControl.{TableEntry};

use arrayvec::ArrayVec;
use rm_columns::{
    ControlRow, ControlSheet, MOST_OWNER, OneNumber, interface_in, interface_name, put_text,
    same_text,
};
use rm_group::TableObjects;
use rm_model::Setting::{Empty, Interface};
use rm_model::{ColumnKind, ColumnSheet, StatusKind, column};
use rm_val::{Oid, Value};
use std::marker::PhantomData;

/// The numbers of the columns of each table whose rows ask for the rows that frames of a data source enter (`SourceColumns`).
pub const SOURCE_NUMBERS: &[u32] = &[1, 2, 3, 4, 5, 6];

/// The columns that can be set: the data source, and the owner.
const COLUMNS: &[ColumnSheet] = &[
    column!(2, ColumnKind::Source, Interface(1)),
    column!(5, ColumnKind::Text(127), Empty, always),
];

/// A control table whose rows ask for what frames of a data source enter or name, by the identifier of its entry. Several such tables may
/// have the same columns.
pub trait SourceTable {
    /// The identifier of the table's entry.
    ghost entry: { TableEntry };

    /// The identifier of the table's entry.
    fn entry() -> &'static [u32]
        ensures { result.now ≡ entry.numbers };
}

/// The columns that can be set of a row that asks for the rows that frames of a data source enter, as those of hostControl ask for hosts
/// (RFC 1757, section 5). All such tables have the same columns: 1 is the index, 2 the data source, 3 how many rows are held, 4 when one last
/// gave way to another, 5 the owner and 6 the status.
#[derive(Drop)]
pub struct SourceColumns<T> {
    /// The number of the interface that the data source names.
    pub source: u32,
    /// The owner.
    pub owner: ArrayVec<u8, MOST_OWNER>,
    table: PhantomData<T>,
}

#[tactic(auto, unfolding(crate::specs::SourceControl::source_rows))]
impl<T: SourceTable> ControlRow for SourceColumns<T> {
    ghost use Rattle.rm_keyed.specs.SourceControl.{source_rows, source_keyed};

    type Keys = OneNumber;

    ghost form = { source_rows T.entry };

    ghost keyed = { source_keyed _ T.entry };

    fn table() -> ControlSheet {
        ControlSheet {
            objects: TableObjects {
                entry: T::entry(),
                columns: SOURCE_NUMBERS,
            },
            status: 6,
            kind: StatusKind::EntryStatus,
            most: 16,
            columns: COLUMNS,
        }
    }

    fn blank(_index: u32) -> Self {
        SourceColumns {
            source: 1,
            owner: ArrayVec::new(),
            table: PhantomData,
        }
    }

    fn put(&mut self, column: u32, value: &Value<'_>) {
        match column {
            2 => self.source = interface_in(value),
            5 => put_text(&mut self.owner, value),
            _ => {}
        }
    }

    fn show(&self, column: u32) -> Option<Value<'_>> {
        match column {
            2 => Some(Value::Name(interface_name(self.source))),
            5 => Some(Value::Octets(self.owner.as_slice())),
            _ => None,
        }
    }

    fn agree(&self) -> bool {
        true
    }

    fn bare(&self) -> Self {
        SourceColumns {
            source: self.source,
            owner: same_text(&self.owner),
            table: PhantomData,
        }
    }
}
