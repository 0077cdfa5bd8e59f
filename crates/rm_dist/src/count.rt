// What is counted of a protocol.

/// What a control row has counted of a protocol: packets and octets, both modulo 2^32.
#[derive(Clone, Copy, Debug, Default, PartialEq, Eq)]
pub struct Count {
    /// The protocolDirLocalIndex of the protocol.
    pub local: u32,
    /// protocolDistStatsPkts.
    pub packets: u32,
    /// protocolDistStatsOctets.
    pub octets: u32,
}

impl Count {
    ghost use Rattle.std.specs.Prelude.{◌≡◌};
    ghost use Rattle.rm_dist.specs.Counts.{first_frame, with_frame};

    /// The count of a first frame, by how many octets it has.
    pub(crate) fn first(local: u32, octets: u32) -> Count
        ensures { result ≡ first_frame local octets }
    {
        Count {
            local,
            packets: 1,
            octets,
        }
    }

    /// Counts one frame more.
    pub(crate) fn add(&mut self, octets: u32)
        ensures { self.new ≡ with_frame octets self.old }
    {
        self.packets = self.packets.wrapping_add(1);
        self.octets = self.octets.wrapping_add(octets);
    }
}
