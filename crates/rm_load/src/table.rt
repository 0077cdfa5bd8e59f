// The tables of which a load has row 1.
ghost use Rattle.std.specs.Prelude.{◌≡◌};
ghost use Rattle.rm_load.specs.Names.{group_of, name_in, status_column};

use rm_val::Oid;

/// A table of which a load has row 1 (RFC 1757 and 2021).
#[derive(Clone, Copy)]
pub enum Table {
    /// The statistics of Ethernet, which has row 1 from the beginning.
    EtherStats,
    /// The control table of the hosts.
    HostControl,
    /// The control table of the pairs of hosts.
    MatrixControl,
    /// The control table of the hosts of the network and application layer.
    HlHostControl,
    /// The control table of their pairs.
    HlMatrixControl,
}

impl Table {
    // The number of the group that it is the first table of.
    fn group(self) -> u32
        ensures { result ≡ group_of self }
    {
        match self {
            Table::EtherStats => 1,
            Table::HostControl => 4,
            Table::MatrixControl => 6,
            Table::HlHostControl => 14,
            Table::HlMatrixControl => 15,
        }
    }

    /// The name of a column of its row 1.
    pub fn name(self, column: u32) -> Oid
        ensures { result ≡ name_in self column }
    {
        Oid::from_slice(&[1, 3, 6, 1, 2, 1, 16, self.group(), 1, 1, column, 1]).unwrap()
    }

    // The column with the status of a row.
    fn status_column(self) -> u32
        ensures { result ≡ status_column self }
    {
        match self {
            Table::EtherStats => 21,
            Table::HostControl | Table::MatrixControl => 6,
            Table::HlHostControl | Table::HlMatrixControl => 12,
        }
    }

    /// The name of the status of its row 1.
    pub fn status_name(self) -> Oid
        ensures { result ≡ name_in self (status_column self) }
    {
        self.name(self.status_column())
    }
}
