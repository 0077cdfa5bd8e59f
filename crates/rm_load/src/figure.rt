// The figures of a load.
ghost use Rattle.std.specs.Prelude.{◌≡◌, ◌≤◌, length};
ghost use Rattle.std.specs.Option.{option_map};
ghost use Rattle.rm_val.specs.Val.{val_of};
ghost use Rattle.rm_load.specs.Names.{variable_of};
ghost use Rattle.rm_load.specs.Text.{number_shown, word_of};

use crate::table::Table;
use rm_val::{Oid, Value};

/// A figure of a load: what a column of row 1 of a table shows. A moment is in hundredths of a second.
#[derive(Clone, Copy)]
pub enum Figure {
    /// How many frames were counted.
    EtherStatsPkts,
    /// Their octets on the wire, modulo 2^32.
    EtherStatsOctets,
    /// How many hosts are held.
    HostControlTableSize,
    /// When the last of them gave way.
    HostControlLastDeleteTime,
    /// How many pairs of hosts are held.
    MatrixControlTableSize,
    /// When the last of them gave way.
    MatrixControlLastDeleteTime,
    /// How many hosts of the network layer were entered.
    HostNlInserts,
    /// How many of them are gone.
    HostNlDeletes,
    /// How many protocols of such hosts were entered.
    HostAlInserts,
    /// How many of them are gone.
    HostAlDeletes,
    /// How many pairs of the network layer were entered.
    MatrixNlInserts,
    /// How many of them are gone.
    MatrixNlDeletes,
    /// How many protocols of such pairs were entered.
    MatrixAlInserts,
    /// How many of them are gone.
    MatrixAlDeletes,
}

/// All figures, in the order of their lines.
pub const FIGURES: [Figure; 14] = [
    Figure::EtherStatsPkts,
    Figure::EtherStatsOctets,
    Figure::HostControlTableSize,
    Figure::HostControlLastDeleteTime,
    Figure::MatrixControlTableSize,
    Figure::MatrixControlLastDeleteTime,
    Figure::HostNlInserts,
    Figure::HostNlDeletes,
    Figure::HostAlInserts,
    Figure::HostAlDeletes,
    Figure::MatrixNlInserts,
    Figure::MatrixNlDeletes,
    Figure::MatrixAlInserts,
    Figure::MatrixAlDeletes,
];

impl Figure {
    /// The word of its line.
    pub fn word(self) -> &'static [u8]
        ensures is { result.now ≡ word_of self }
        ensures short { length result.now ≤ 27 }
    {
        match self {
            Figure::EtherStatsPkts => b"etherStatsPkts",
            Figure::EtherStatsOctets => b"etherStatsOctets",
            Figure::HostControlTableSize => b"hostControlTableSize",
            Figure::HostControlLastDeleteTime => b"hostControlLastDeleteTime",
            Figure::MatrixControlTableSize => b"matrixControlTableSize",
            Figure::MatrixControlLastDeleteTime => b"matrixControlLastDeleteTime",
            Figure::HostNlInserts => b"hostNlInserts",
            Figure::HostNlDeletes => b"hostNlDeletes",
            Figure::HostAlInserts => b"hostAlInserts",
            Figure::HostAlDeletes => b"hostAlDeletes",
            Figure::MatrixNlInserts => b"matrixNlInserts",
            Figure::MatrixNlDeletes => b"matrixNlDeletes",
            Figure::MatrixAlInserts => b"matrixAlInserts",
            Figure::MatrixAlDeletes => b"matrixAlDeletes",
        }
    }

    /// The name of its variable.
    pub fn variable(self) -> Oid
        ensures { result ≡ variable_of self }
    {
        match self {
            Figure::EtherStatsPkts => Table::EtherStats.name(5),
            Figure::EtherStatsOctets => Table::EtherStats.name(4),
            Figure::HostControlTableSize => Table::HostControl.name(3),
            Figure::HostControlLastDeleteTime => Table::HostControl.name(4),
            Figure::MatrixControlTableSize => Table::MatrixControl.name(3),
            Figure::MatrixControlLastDeleteTime => Table::MatrixControl.name(4),
            Figure::HostNlInserts => Table::HlHostControl.name(4),
            Figure::HostNlDeletes => Table::HlHostControl.name(5),
            Figure::HostAlInserts => Table::HlHostControl.name(8),
            Figure::HostAlDeletes => Table::HlHostControl.name(9),
            Figure::MatrixNlInserts => Table::HlMatrixControl.name(4),
            Figure::MatrixNlDeletes => Table::HlMatrixControl.name(5),
            Figure::MatrixAlInserts => Table::HlMatrixControl.name(8),
            Figure::MatrixAlDeletes => Table::HlMatrixControl.name(9),
        }
    }
}

/// The number that a variable shows, 0 where it has no value, or one of another kind.
pub fn number_shown(value: Option<Value<'_>>) -> u32
    ensures { result ≡ number_shown (option_map val_of value.entry) }
{
    match value {
        Some(Value::Int(number)) => u32::try_from(number).unwrap_or(0),
        Some(Value::Counter(number)) => number,
        Some(Value::Ticks(number)) => number,
        _ => 0,
    }
}
