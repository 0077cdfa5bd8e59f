// The columns of hlHostControl and of hlMatrixControl.
ghost use Rattle.std.specs.Prelude.{◌≡◌, ◌<◌, ◌≤◌};
ghost use Rattle.rm_val.specs.Val.{int};
ghost use Rattle.rm_layers.specs.Capacity.{bounded};
ghost use Rattle.rm_layer_tables.specs.Control.{bound_of};
ghost use Rattle.rm_layer_tables.specs.ControlColumns.{room_of, IsInRange};

use arrayvec::ArrayVec;
use rm_columns::{
    ControlRow, ControlSheet, MOST_OWNER, OneNumber, interface_in, interface_name, number_in,
    put_text, same_text,
};
use rm_group::TableObjects;
use rm_keyed::SourceTable;
use rm_model::Setting::{Empty, Interface, Number};
use rm_model::{ColumnKind, ColumnSheet, Span, StatusKind, column};
use rm_val::{Oid, Value};
use std::marker::PhantomData;

/// The number of the status.
const STATUS: u32 = 12;

/// How many application rows a network row has room for.
const APPLICATIONS: u32 = 32;

/// The numbers of the columns of hlHostControl and of hlMatrixControl that are answered.
pub const LAYER_NUMBERS: &[u32] = &[2, 3, 4, 5, 6, 7, 8, 9, 10, 11, 12];

/// The number that asks for as many rows as there can be.
const NO_BOUND: Span = Span {
    least: -1,
    greatest: -1,
};

/// The numbers that a count of desired rows takes: -1, and those from a least one on.
macro_rules! desired {
    ($least:expr) => {
        ColumnKind::Either(
            NO_BOUND,
            Span {
                least: $least,
                greatest: i32::MAX,
            },
        )
    };
}

/// The columns that can be set: the data source, the most desired rows of each layer, and the owner.
const COLUMNS: &[ColumnSheet] = &[
    column!(2, ColumnKind::Source, Interface(1)),
    column!(6, desired!(1), Number(-1)),
    column!(10, desired!(32), Number(-1)),
    column!(11, ColumnKind::Text(127), Empty, always),
];

/// The columns of a row of hlHostControl, or of hlMatrixControl, that can be set (RFC 2021, section 6). Both tables have the same columns: 1
/// is the index, which isn't answered, 2 the data source, 3 to 5 the dropped frames and the network rows that were entered and are gone, 6 the
/// most network rows, 7 to 10 the same of application rows, 11 the owner and 12 the status.
#[derive(Drop)]
pub struct LayerColumns<T> {
    /// The number of the interface whose frames the row counts.
    pub source: u32,
    /// The most network rows that are desired, -1 for as many as there can be.
    pub network: i32,
    /// The most application rows that are desired, -1 for as many as there can be.
    pub application: i32,
    /// Who owns the row.
    pub owner: ArrayVec<u8, MOST_OWNER>,
    table: PhantomData<T>,
}

// The most rows that a number asks for. None where it sets no bound.
fn bound_of(number: i32) -> Option<u32>
    ensures { result ≡ bound_of (int number) }
{
    u32::try_from(number).ok()
}

// So many rows, or as many as are asked for where these are fewer.
fn bounded(rows: u32, most: Option<u32>) -> u32
    ensures { result ≡ bounded rows most }
{
    match most {
        Some(most) => rows.min(most),
        None => rows,
    }
}

impl<T> LayerColumns<T> {
    /// How many network rows the row has room for, where storage is reserved for so many: the least of that number, of the most that are
    /// desired, and of the most application rows that are desired divided by the 32 that a network row has room for.
    pub fn room(&self, upper: u32) -> u32
        ensures value { result ≡ room_of upper self.now }
        ensures within { result ≤ upper }
        ensures some { 0 < upper → IsInRange self.now → 0 < result }
    {
        let network = bounded(upper, bound_of(self.network));
        match bound_of(self.application) {
            Some(most) => network.min(most / APPLICATIONS),
            None => network,
        }
    }
}

#[tactic(auto, unfolding(crate::specs::ControlColumns::layer_rows))]
impl<T: SourceTable> ControlRow for LayerColumns<T> {
    ghost use Rattle.rm_layer_tables.specs.ControlColumns.{layer_rows, layer_keyed};

    type Keys = OneNumber;

    ghost form = { layer_rows T.entry };

    ghost keyed = { layer_keyed _ T.entry };

    fn table() -> ControlSheet {
        ControlSheet {
            objects: TableObjects {
                entry: T::entry(),
                columns: LAYER_NUMBERS,
            },
            status: STATUS,
            kind: StatusKind::RowStatus,
            most: 16,
            columns: COLUMNS,
        }
    }

    fn blank(_index: u32) -> Self {
        LayerColumns {
            source: 1,
            network: -1,
            application: -1,
            owner: ArrayVec::new(),
            table: PhantomData,
        }
    }

    fn put(&mut self, column: u32, value: &Value<'_>) {
        match column {
            2 => self.source = interface_in(value),
            6 => self.network = number_in(value),
            10 => self.application = number_in(value),
            11 => put_text(&mut self.owner, value),
            _ => {}
        }
    }

    fn show(&self, column: u32) -> Option<Value<'_>> {
        match column {
            2 => Some(Value::Name(interface_name(self.source))),
            6 => Some(Value::Int(self.network)),
            10 => Some(Value::Int(self.application)),
            11 => Some(Value::Octets(self.owner.as_slice())),
            _ => None,
        }
    }

    fn agree(&self) -> bool {
        true
    }

    fn bare(&self) -> Self {
        LayerColumns {
            source: self.source,
            network: self.network,
            application: self.application,
            owner: same_text(&self.owner),
            table: PhantomData,
        }
    }
}
