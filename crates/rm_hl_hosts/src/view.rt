// How nlHost and alHost show hosts.
ghost use Rattle.std.specs.Prelude.{◌≡◌};
ghost use Rattle.rm_hl_hosts.specs.Columns.{gauge_in, traffic_in};
ghost use Rattle.rm_hl_hosts.specs.Hosts.{nl_host, al_host};

use crate::part::HostPart;
use rm_group::TableObjects;
use rm_layer_hosts::{NetworkCounts, Traffic};
use rm_layer_tables::{HeldTable, LayerView, MarkedObjects};

/// The objects of nlHostTable (RFC 2021, section 6).
pub(crate) const NETWORK_OBJECTS: TableObjects = TableObjects {
    entry: &[1, 3, 6, 1, 2, 1, 16, 14, 2, 1],
    columns: &[3, 4, 5, 6, 7, 8],
};

/// The objects of alHostTable (RFC 2021, section 6).
pub(crate) const APPLICATION_OBJECTS: TableObjects = TableObjects {
    entry: &[1, 3, 6, 1, 2, 1, 16, 16, 1, 1],
    columns: &[2, 3, 4, 5, 6],
};

/// Hosts as nlHost shows them, and alHost the protocols that they take part in.
#[derive(Drop)]
pub(crate) struct HostView;

impl LayerView for HostView {
    ghost use Rattle.rm_hl_hosts.specs.Collection.{hosts_of};
    ghost use Rattle.rm_hl_hosts.specs.HostLaws.{networks_shown, applications_shown};

    type Part = HostPart;

    type Key = [u8; 4];

    type Counts = NetworkCounts;

    type Rows = HeldTable<[u8; 4], NetworkCounts>;

    ghost table_of = { hosts_of };

    ghost networks = { nl_host };

    ghost applications = { al_host };

    ghost application_count = { traffic_in };

    fn rows(part: &HostPart) -> &HeldTable<[u8; 4], NetworkCounts> {
        &part.hosts
    }

    fn networks() -> MarkedObjects {
        MarkedObjects {
            objects: NETWORK_OBJECTS,
            created: 8,
        }
    }

    fn applications() -> MarkedObjects {
        MarkedObjects {
            objects: APPLICATION_OBJECTS,
            created: 6,
        }
    }

    fn network_count(column: u32, counts: &NetworkCounts) -> u64 {
        gauge_in(column, counts)
    }

    fn application_count(column: u32, traffic: &Traffic) -> u64 {
        traffic_in(column, traffic)
    }

    ghost networks_shown = { networks_shown };

    ghost applications_shown = { applications_shown };
}

// The gauge in a column of nlHost.
fn gauge_in(column: u32, counts: &NetworkCounts) -> u64
    ensures { result ≡ gauge_in column counts.now }
{
    match column {
        7 => counts.out_non_unicast_pkts,
        _ => traffic_in(column.saturating_sub(1), &counts.traffic),
    }
}

// The gauge in a column of alHost.
fn traffic_in(column: u32, traffic: &Traffic) -> u64
    ensures { result ≡ traffic_in column traffic.now }
{
    match column {
        2 => traffic.in_pkts,
        3 => traffic.out_pkts,
        4 => traffic.in_octets,
        _ => traffic.out_octets,
    }
}
