// What is counted of hosts.

ghost use Rattle.std.specs.Prelude.{◌≡◌};
ghost use Rattle.rm_layer_hosts.specs.Counts.{no_traffic, more_traffic, host_tally};

use rm_upper::Counts;

/// Packets and octets, in and out.
#[derive(Clone, Copy, PartialEq, Eq, Debug)]
pub struct Traffic {
    /// Frames to the host.
    pub in_pkts: u64,
    /// Frames from the host.
    pub out_pkts: u64,
    /// Octets of frames to the host.
    pub in_octets: u64,
    /// Octets of frames from the host.
    pub out_octets: u64,
}

impl Traffic {
    /// None of it.
    pub fn none() -> Traffic
        ensures { result ≡ no_traffic }
    {
        Traffic {
            in_pkts: 0,
            out_pkts: 0,
            in_octets: 0,
            out_octets: 0,
        }
    }

    /// Adds more of it, modulo 2^64.
    pub fn add(&mut self, more: &Traffic)
        ensures { self.new ≡ more_traffic self.old more.now }
    {
        self.in_pkts = self.in_pkts.wrapping_add(more.in_pkts);
        self.out_pkts = self.out_pkts.wrapping_add(more.out_pkts);
        self.in_octets = self.in_octets.wrapping_add(more.in_octets);
        self.out_octets = self.out_octets.wrapping_add(more.out_octets);
    }
}

/// What a row of nlHostTable counts: packets and octets, and of the packets out those to broadcast and multicast addresses of the
/// medium (RFC 2021, nlHostOutMacNonUnicastPkts).
#[derive(Clone, Copy, PartialEq, Eq, Debug)]
pub struct NetworkCounts {
    /// Its frames and octets.
    pub traffic: Traffic,
    /// Frames from the host to a group address or the broadcast address of Ethernet.
    pub out_non_unicast_pkts: u64,
}

#[tactic(auto, unfolding(crate::specs::Counts::host_tally))]
impl Counts for NetworkCounts {
    type Application = Traffic;

    ghost tally = { host_tally };

    fn none() -> NetworkCounts {
        NetworkCounts {
            traffic: Traffic::none(),
            out_non_unicast_pkts: 0,
        }
    }

    // Sums go on modulo 2^64.
    fn add(&mut self, gain: &NetworkCounts) {
        self.traffic.add(&gain.traffic);
        self.out_non_unicast_pkts = self
            .out_non_unicast_pkts
            .wrapping_add(gain.out_non_unicast_pkts);
    }

    fn no_application() -> Traffic {
        Traffic::none()
    }

    fn add_to(application: &mut Traffic, gain: &NetworkCounts) {
        application.add(&gain.traffic);
    }
}
