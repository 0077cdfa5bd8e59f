ghost use Rattle.std.specs.Prelude.{Some, IsErr, IsNone, IfSome, IfOk, OnOk, OnErr, ◌↔◌, ◌⊎◌, ◌≡◌, ◌+◌, ◌-◌, ◌<◌, ◌≤◌, [], ◌∷◌, ◌++◌, length, take, drop, slice_get};
ghost use Rattle.rm_edge.specs.Outside.{HasCause, one_more};
ghost use Rattle.rm_edge.specs.Link.{Receives};
ghost use Rattle.rm_edge.specs.MemLink.{IsToFail, failed_at};

use super::calls::Calls;
use super::datagrams::{Arriving, Departed};
use crate::outside::{Failed, Link, Peer};
use arrayvec::ArrayVec;
use rm_val::NoMemory;
use std::alloc::Global;
use std::marker::Model;

/// A link in memory. It binds up to 16 ports, gives the datagrams that were added, and sends as many as there is room for. It
/// fails at the calls that were listed, where it has no datagram to give or no room, and nowhere else. It tells its lists,
/// which stay as they are at a call that fails. No call of a link asks for memory, and none needs a port that is bound.
#[derive(Drop)]
pub struct MemLink {
    alloc: Global,
    bound: ArrayVec<u16, 16>,
    arriving: Vec<Arriving>,
    // How many of them were received.
    received: usize,
    sent: Vec<Departed>,
    // How many more can be sent.
    room: usize,
    calls: Calls,
    faults: u64,
}

impl Model for MemLink {
    ghost use Rattle.std.specs.Prelude.{◌+◌, ◌≤◌, take, drop, vec_len, vec_capacity};
    ghost use Rattle.rm_edge.specs.MemLink.{LinkState};

    ghost Value = { LinkState };

    ghost view = { λ l. record {
      bound = l.bound.items;
      received = take l.received l.arriving.items;
      waiting = drop l.received l.arriving.items;
      sent = l.sent.items;
      room = l.room;
      calls = l.calls.count;
      failing = l.calls.failing.items;
      faults = l.faults;
    } };

    ghost invariant = { λ l. (l.received ≤ vec_len l.arriving) × (vec_len l.sent + l.room ≤ vec_capacity l.sent) };
}

impl MemLink {
    /// A link with no port bound, nothing to receive, and no room for datagrams to send.
    pub fn new(alloc: Global) -> MemLink
        ensures { result ≡ record { bound = []; received = []; waiting = []; sent = []; room = 0; calls = 0; failing = []; faults = 0 } }
    {
        MemLink {
            alloc,
            bound: ArrayVec::new(),
            arriving: Vec::new(alloc),
            received: 0,
            sent: Vec::new(alloc),
            room: 0,
            calls: Calls::new(alloc),
            faults: 0,
        }
    }

    /// Adds a datagram from that peer, which is received after those added before. After NoMemory the link is as before.
    pub fn add(&mut self, from: Peer, bytes: &[u8]) -> Result<(), NoMemory>
        ensures ok { OnOk result (self.new
            ≡ record self.old { waiting = self.old.waiting ++ record { peer = from; bytes = bytes.now } ∷ [] }) }
        ensures err { OnErr result (self.new ≡ self.old) }
    {
        let datagram = Arriving::new(self.alloc, from, bytes)?;
        self.arriving.push(datagram).map_err(|_| NoMemory)
    }

    /// Makes room to send so many more datagrams, each of at most 1,472 octets. After NoMemory the link is as before.
    pub fn reserve(&mut self, sends: usize) -> Result<(), NoMemory>
        ensures ok { OnOk result (self.new ≡ record self.old { room = self.old.room + sends }) }
        ensures err { OnErr result (self.new ≡ self.old) }
    {
        let room = self.room.checked_add(sends).ok_or(NoMemory)?;
        self.sent.reserve(room).map_err(|_| NoMemory)?;
        self.room = room;
        Ok(())
    }

    /// Lists the number of a bind, receive or send that is to fail, the first of all these calls since the link was made being 1.
    /// After NoMemory the link is as before.
    pub fn fail(&mut self, call: u64) -> Result<(), NoMemory>
        ensures ok { OnOk result (self.new
            ≡ record self.old { failing = self.old.failing ++ call ∷ [] }) }
        ensures err { OnErr result (self.new ≡ self.old) }
    {
        self.calls.fail(call)
    }

    /// The datagram sent at that place, the first one being at 0: to whom, and its octets. None exactly where fewer were sent.
    pub fn sent(&self, place: usize) -> Option<(Peer, &[u8])>
        ensures datagram { IfSome result (λ found. slice_get self.now.sent place ≡ Some (record { peer = found.0; bytes = found.1.now })) }
        ensures past { IsNone result ↔ (length self.now.sent ≤ place) }
    {
        let datagram = self.sent.get(place)?;
        Some((datagram.peer(), datagram.bytes()))
    }

    // Begins a call of the link, which fails where it is listed.
    fn begin(&mut self) -> Result<(), Failed>
        ensures cause { HasCause self.old.faults self.new.faults result }
        ensures exact { IsErr result ↔ IsToFail self.old }
        ensures ok { OnOk result (self.new ≡ record self.old { calls = one_more self.old.calls }) }
        ensures err { OnErr result (self.new ≡ failed_at self.old) }
    {
        if self.calls.begin() {
            return Err(self.fault());
        }
        Ok(())
    }

    fn fault(&mut self) -> Failed
        ensures counted { self.new ≡ record self.old { faults = one_more self.old.faults } }
        ensures later { self.old.faults ≤ self.new.faults }
    {
        self.faults = self.faults.saturating_add(1);
        Failed
    }
}

impl Link for MemLink {
    ghost bound = { λ l. Some l.bound };

    ghost received = { λ l. Some l.received };

    ghost sent = { λ l. Some l.sent };

    ghost faults = { λ l. l.faults };

    fn bind(&mut self, port: u16) -> Result<(), Failed>
        ensures cause { HasCause self.old.faults self.new.faults result }

        // It fails at the listed calls and where 16 ports are bound, and nowhere else.
        ensures exact { IsErr result ↔ (IsToFail self.old ⊎ (16 ≤ length self.old.bound)) }
        ensures ok { OnOk result (self.new
            ≡ record self.old { bound = self.old.bound ++ port ∷ []; calls = one_more self.old.calls }) }
        ensures err { OnErr result (self.new ≡ failed_at self.old) }
    {
        self.begin()?;
        match self.bound.try_push(port) {
            Ok(()) => Ok(()),
            Err(_) => Err(self.fault()),
        }
    }

    fn receive(&mut self, into: &mut [u8]) -> Result<(Peer, usize), Failed>
        ensures most { IfOk result (λ found. found.1 ≤ length into.old) }
        ensures datagram { Receives (Some self.old.received) (Some self.new.received) into.new result }
        ensures cause { HasCause self.old.faults self.new.faults result }

        // It fails at the listed calls and where no datagram is left, and nowhere else.
        ensures exact { IsErr result ↔ (IsToFail self.old ⊎ (self.old.waiting ≡ [])) }
        ensures ok { OnOk result (self.new ≡ record self.old {
          received = self.old.received ++ take 1 self.old.waiting;
          waiting = drop 1 self.old.waiting;
          calls = one_more self.old.calls;
        }) }
        ensures err { OnErr result (self.new ≡ failed_at self.old) }
    {
        self.begin()?;
        let Some(datagram) = self.arriving.get(self.received) else {
            return Err(self.fault());
        };
        let found = datagram.copy_into(into);
        self.received += 1;
        Ok(found)
    }

    fn send(&mut self, to: Peer, bytes: &[u8]) -> Result<(), Failed>
        ensures cause { HasCause self.old.faults self.new.faults result }

        // It fails at the listed calls, where there is no room, and where the datagram has more than 1,472 octets, and nowhere else.
        ensures exact { IsErr result ↔ (IsToFail self.old ⊎ (self.old.room ≡ 0) ⊎ (1472 < length bytes.now)) }
        ensures ok { OnOk result (self.new ≡ record self.old {
          sent = self.old.sent ++ record { peer = to; bytes = bytes.now } ∷ [];
          room = self.old.room - 1;
          calls = one_more self.old.calls;
        }) }
        ensures err { OnErr result (self.new ≡ failed_at self.old) }
    {
        self.begin()?;
        let datagram = match Departed::new(to, bytes) {
            Some(datagram) if self.room > 0 => datagram,
            _ => return Err(self.fault()),
        };
        // This asks for no memory, since the room was reserved.
        let _ = self.sent.push(datagram);
        self.room -= 1;
        Ok(())
    }
}
