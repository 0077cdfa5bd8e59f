ghost use Rattle.std.specs.Prelude.{◌≤◌, None, length, IfSome, IsNone};

use super::counted::Counted;
use crate::outside::{Failed, Link, Peer};
use std::net::{Ipv4Addr, Net, SocketAddr, SocketAddrV4, UdpSocket};

/// A socket of UDP on 127.0.0.1, a link once its faults are counted. A receive or a send before a port is bound is a fault, and so
/// is each error. A datagram from port 0 wants no reply (RFC 768): a send to port 0 sends nothing, and that is no fault.
#[derive(Drop)]
pub struct UdpLink<R> {
    rt: R,
    socket: Option<UdpSocket>,
}

impl<R: Net> UdpLink<R> {
    /// A socket with no port bound.
    pub fn new(rt: R) -> UdpLink<R>
        ensures { IsNone result.socket }
    {
        UdpLink { rt, socket: None }
    }

    fn bind_to(&mut self, port: u16) -> Option<()> {
        let local = SocketAddrV4::new(Ipv4Addr::LOCALHOST, port);
        self.socket = Some(UdpSocket::bind(&self.rt, local).ok()?);
        Some(())
    }

    // Waits for a datagram. None where no port is bound, and at an error.
    fn receive_from(&self, into: &mut [u8]) -> Option<(Peer, usize)>
        ensures { IfSome result (λ found. found.1 ≤ length into.old) }
    {
        let (count, from) = self.socket.as_ref()?.recv_from(into).ok()?;
        match from {
            SocketAddr::V4(from) => Some((
                Peer {
                    ip: from.ip().octets(),
                    port: from.port(),
                },
                count,
            )),
            SocketAddr::V6(_) => None,
        }
    }

    // Sends a datagram, or nothing to port 0. None where no port is bound, and at an error.
    fn send_to(&self, to: Peer, bytes: &[u8]) -> Option<()> {
        let socket = self.socket.as_ref()?;
        if to.port == 0 {
            return Some(());
        }
        let to = SocketAddrV4::new(Ipv4Addr::from_octets(to.ip), to.port);
        let count = socket.send_to(bytes, to).ok()?;
        (count == bytes.len()).then_some(())
    }
}

impl<R: Net> Link for Counted<UdpLink<R>> {
    ghost bound = { λ _. None };

    ghost received = { λ _. None };

    ghost sent = { λ _. None };

    ghost faults = { λ l. l.faults };

    fn bind(&mut self, port: u16) -> Result<(), Failed> {
        let bound = self.inner.bind_to(port);
        self.check(bound)
    }

    fn receive(&mut self, into: &mut [u8]) -> Result<(Peer, usize), Failed> {
        let found = self.inner.receive_from(into);
        self.check(found)
    }

    fn send(&mut self, to: Peer, bytes: &[u8]) -> Result<(), Failed> {
        let sent = self.inner.send_to(to, bytes);
        self.check(sent)
    }
}
