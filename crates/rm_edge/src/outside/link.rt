ghost use Rattle.std.specs.Prelude.{◌≡◌, ◌≤◌, ℕ, List, Option, length, IfOk};
ghost use Rattle.rm_edge.specs.Outside.{HasCause};

use super::Failed;

/// Where a datagram comes from or goes to: an address of IPv4, most significant octet first, and
/// a port of UDP.
#[derive(Clone, Copy, Debug, PartialEq, Eq)]
pub struct Peer {
    pub ip: [u8; 4],
    pub port: u16,
}

/// A socket for datagrams.
pub trait Link {
    ghost use Rattle.rm_edge.specs.Link.{Datagram, Binds, Receives, Sends};

    /// The ports bound so far, where the link tells them.
    ghost bound: { Self → Option (List ℕ) };

    /// The datagrams received so far, where the link tells them.
    ghost received: { Self → Option (List Datagram) };

    /// The datagrams sent so far, where the link tells them.
    ghost sent: { Self → Option (List Datagram) };

    /// How often a call has failed. The count never falls.
    ghost faults: { Self → ℕ };

    /// Binds the port. A bind that fails binds nothing.
    ///
    /// Failed comes only where the count of faults has risen.
    fn bind(&mut self, port: u16) -> Result<(), Failed>
        ensures ports { Binds (bound self.old) (bound self.new) port result }
        ensures received { received self.new ≡ received self.old }
        ensures sent { sent self.new ≡ sent self.old }
        ensures cause { HasCause (faults self.old) (faults self.new) result };

    /// Takes the next datagram, and answers its sender and how many of its octets stand at the
    /// front of `into`: all of them, or the first that fit. The datagram counts as received whole.
    /// A receive that fails takes none.
    ///
    /// Failed comes only where the count of faults has risen.
    fn receive(&mut self, into: &mut [u8]) -> Result<(Peer, usize), Failed>
        ensures most { IfOk result (λ found. found.1 ≤ length into.old) }
        ensures datagram { Receives (received self.old) (received self.new) into.new result }
        ensures ports { bound self.new ≡ bound self.old }
        ensures sent { sent self.new ≡ sent self.old }
        ensures cause { HasCause (faults self.old) (faults self.new) result };

    /// Sends these octets as one datagram. A send that fails may have sent it.
    ///
    /// Failed comes only where the count of faults has risen.
    fn send(&mut self, to: Peer, bytes: &[u8]) -> Result<(), Failed>
        ensures datagram { Sends (sent self.old) (sent self.new) to bytes.now result }
        ensures ports { bound self.new ≡ bound self.old }
        ensures received { received self.new ≡ received self.old }
        ensures cause { HasCause (faults self.old) (faults self.new) result };
}
