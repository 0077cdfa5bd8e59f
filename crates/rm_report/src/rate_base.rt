// Which counter of hosts a report compares.
ghost use Rattle.std.specs.Prelude.{◌≡◌};
ghost use Rattle.rm_report.specs.RateBase.{count_of, numbering};

use rm_columns::Numbered;
use rm_hosts::HostCounts;

/// Which counter of hosts a report compares (RFC 1757, hostTopNRateBase).
#[derive(Clone, Copy, Debug, PartialEq, Eq)]
pub enum RateBase {
    /// hostTopNInPkts: the good frames to a host.
    InPkts = 1,
    /// hostTopNOutPkts: the frames from it.
    OutPkts = 2,
    /// hostTopNInOctets: the octets of the good frames to it.
    InOctets = 3,
    /// hostTopNOutOctets: the octets of the frames from it.
    OutOctets = 4,
    /// hostTopNOutErrors: the bad frames from it.
    OutErrors = 5,
    /// hostTopNOutBroadcastPkts: the good frames from it to the broadcast address.
    OutBroadcastPkts = 6,
    /// hostTopNOutMulticastPkts: the good frames from it to the address of a group.
    OutMulticastPkts = 7,
}

impl RateBase {
    /// That counter of a host.
    pub(crate) fn count(self, counts: &HostCounts) -> u64
        ensures { result ≡ count_of self counts.now }
    {
        match self {
            Self::InPkts => counts.in_pkts,
            Self::OutPkts => counts.out_pkts,
            Self::InOctets => counts.in_octets,
            Self::OutOctets => counts.out_octets,
            Self::OutErrors => counts.out_errors,
            Self::OutBroadcastPkts => counts.out_broadcast,
            Self::OutMulticastPkts => counts.out_multicast,
        }
    }
}

impl Numbered for RateBase {
    ghost numbering = { numbering };

    fn variants() -> &'static [RateBase] {
        &[
            Self::InPkts,
            Self::OutPkts,
            Self::InOctets,
            Self::OutOctets,
            Self::OutErrors,
            Self::OutBroadcastPkts,
            Self::OutMulticastPkts,
        ]
    }

    fn number(self) -> i32 {
        self as i32
    }
}
