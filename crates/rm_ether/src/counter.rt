// The counters of etherStats.
ghost use Rattle.std.specs.Prelude.{◌≡◌};

/// A counter of etherStats (RFC 1757, section 5), by the name of its object.
#[derive(Clone, Copy, Debug, PartialEq, Eq)]
pub enum Counter {
    DropEvents,
    Octets,
    Pkts,
    BroadcastPkts,
    MulticastPkts,
    CRCAlignErrors,
    UndersizePkts,
    OversizePkts,
    Fragments,
    Jabbers,
    Collisions,
    Pkts64Octets,
    Pkts65to127Octets,
    Pkts128to255Octets,
    Pkts256to511Octets,
    Pkts512to1023Octets,
    Pkts1024to1518Octets,
}

impl Counter {
    ghost use Rattle.rm_ether.specs.Columns.{counter_numbered};

    /// The counter in the column with that number. It is etherStatsPkts1024to1518Octets for every number that isn't one of the
    /// others'.
    #[tactic(auto, unfolding(crate::specs::Columns::counter_numbered))]
    pub fn numbered(number: u32) -> Counter
        ensures { result ≡ counter_numbered number }
    {
        match number {
            3 => Counter::DropEvents,
            4 => Counter::Octets,
            5 => Counter::Pkts,
            6 => Counter::BroadcastPkts,
            7 => Counter::MulticastPkts,
            8 => Counter::CRCAlignErrors,
            9 => Counter::UndersizePkts,
            10 => Counter::OversizePkts,
            11 => Counter::Fragments,
            12 => Counter::Jabbers,
            13 => Counter::Collisions,
            14 => Counter::Pkts64Octets,
            15 => Counter::Pkts65to127Octets,
            16 => Counter::Pkts128to255Octets,
            17 => Counter::Pkts256to511Octets,
            18 => Counter::Pkts512to1023Octets,
            _ => Counter::Pkts1024to1518Octets,
        }
    }
}
