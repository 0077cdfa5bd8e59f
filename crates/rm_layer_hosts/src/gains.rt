// What a good frame adds to the counts of its ends.

ghost use Rattle.std.specs.Prelude.{◌≡◌};
ghost use Rattle.rm_layer_hosts.specs.Gains.{sent, received, is_to_many};

use crate::counts::{NetworkCounts, Traffic};
use rm_proto::{Cast, Facts};

// Whether a frame was sent to the broadcast address of the medium, or to that of a group.
fn is_to_many(cast: Cast) -> bool
    ensures { result ≡ is_to_many cast }
{
    match cast {
        Cast::Uni => false,
        Cast::Multi | Cast::Broad => true,
    }
}

/// What a good frame adds to the counts of the host that sent it (RFC 2021, nlHostEntry).
pub fn sent(facts: &Facts) -> NetworkCounts
    ensures { result ≡ sent facts.now }
{
    NetworkCounts {
        traffic: Traffic {
            out_pkts: 1,
            out_octets: u64::from(facts.length),
            ..Traffic::none()
        },
        out_non_unicast_pkts: u64::from(is_to_many(facts.cast)),
    }
}

/// What it adds to those of the host that it was sent to.
pub fn received(facts: &Facts) -> NetworkCounts
    ensures { result ≡ received facts.now }
{
    NetworkCounts {
        traffic: Traffic {
            in_pkts: 1,
            in_octets: u64::from(facts.length),
            ..Traffic::none()
        },
        out_non_unicast_pkts: 0,
    }
}
