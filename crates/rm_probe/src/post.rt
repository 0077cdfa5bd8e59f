// Where messages are sent.
ghost use Rattle.std.specs.Prelude.{◌≡◌, ℕ, List, [], Option, Some, refl};
ghost use Rattle.std.proofs.Common.{◌∙◌};
ghost use Rattle.rm_edge.specs.Link.{Datagram};
ghost use Rattle.rm_edge.specs.Outside.{HasCause, Puts};
ghost use Rattle.rm_edge.specs.declared.outside.link.Peer.{Peer as Place};
ghost use Rattle.rm_probe.specs.Said.{to_each};
ghost use Rattle.rm_probe.specs.Post.{addressed, same_peers};

use rm_edge::{Failed, Link, Peer};

/// To whom a message goes.
#[derive(Clone, Copy)]
pub enum Addressee {
    /// To who is told of notifications.
    Manager,
    /// To who sent the datagram that is answered.
    Asking,
}

/// Where messages are sent.
pub trait Post {
    ghost use Rattle.rm_probe.specs.declared.post.Addressee.{Addressee};

    /// Where what goes to an addressee is sent.
    ghost peers: { Self → Addressee → List Place };

    /// The datagrams sent so far, where they are told.
    ghost sent: { Self → Option (List Datagram) };

    /// How often a send has failed. The count never falls.
    ghost faults: { Self → ℕ };

    /// It is the same post, with the same peers.
    ghost same: { Self → Self → Type 0 };

    /// Sends a message. Failed comes only where the count of faults has risen; the message may have been sent then.
    fn send(&mut self, to: Addressee, message: &[u8]) -> Result<(), Failed>
        ensures sent { Puts (sent self.old) (sent self.new) (to_each (peers self.old to) message.now) result }
        ensures cause { HasCause (faults self.old) (faults self.new) result }
        ensures same { same self.old self.new };

    /// A post is the same as itself, and as what is the same as the same. That has the same peers.
    ghost still: { (post : Self) → same post post };

    ghost onward: { (a b c : Self) → same a b → same b c → same a c };

    ghost kept: { (a b : Self) → same a b → peers b ≡ peers a };
}

/// Nothing is sent.
#[derive(Drop)]
pub struct Unsent;

impl Post for Unsent {
    ghost peers = { λ _ _. [] };

    ghost sent = { λ _. Some [] };

    ghost faults = { λ _. 0 };

    ghost same = { λ _ _. Unit {0} };

    fn send(&mut self, _to: Addressee, _message: &[u8]) -> Result<(), Failed> {
        Ok(())
    }

    ghost still = { λ _. tt };

    ghost onward = { λ _ _ _ _ _. tt };

    ghost kept = { λ _ _ _. refl };
}

/// A link, over which notifications go to a manager and replies to a peer.
#[derive(Drop)]
pub struct Posted<'a, L: Link> {
    pub link: &'a mut L,
    pub manager: Peer,
    pub peer: Peer,
}

impl<L: Link> Post for Posted<'_, L> {
    ghost peers = { λ post to. addressed post.manager post.peer to };

    ghost sent = { λ post. L.sent post.link.now };

    ghost faults = { λ post. L.faults post.link.now };

    // The link has bound and received the same.
    ghost same = { λ a b. (b.link.ghost_name ≡ a.link.ghost_name) × (b.manager ≡ a.manager) × (b.peer ≡ a.peer)
        × (L.bound b.link.now ≡ L.bound a.link.now) × (L.received b.link.now ≡ L.received a.link.now) };

    fn send(&mut self, to: Addressee, message: &[u8]) -> Result<(), Failed> {
        let peer = match to {
            Addressee::Manager => self.manager,
            Addressee::Asking => self.peer,
        };
        self.link.send(peer, message)
    }

    ghost still = { λ post. (refl, refl, refl, refl, refl) };

    ghost onward = { λ a b c first then. (then.0 ∙ first.0, then.1 ∙ first.1, then.2 ∙ first.2, then.3 ∙ first.3, then.4 ∙ first.4) };

    ghost kept = { λ a b is. same_peers a.manager a.peer b.manager b.peer is.1 is.2 };
}
