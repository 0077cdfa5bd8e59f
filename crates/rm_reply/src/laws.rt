// Laws of replies. A body cites laws of messages and of cells, or is empty.
ghost use Rattle.std.specs.Prelude.{◌≡◌, ◌≤◌, ℕ, Bool, true, length};
ghost use Rattle.rm_model.specs.Counting.{Counting};
ghost use Rattle.rm_model.specs.Journal.{Journal};
ghost use Rattle.rm_model.specs.Finite.{AreFinite};
ghost use Rattle.rm_model.specs.Readings.{nothing_read};
ghost use Rattle.rm_pdu.specs.Message.{Message};
ghost use Rattle.rm_pdu.specs.Parse.{is_read};
ghost use Rattle.rm_reply.specs.Responses.{IsReplyBy};
ghost use Rattle.rm_reply.specs.Sets.{given_by};
ghost use Rattle.rm_reply.specs.Storage.{IsGrantedBy, IsGrantedOrDenied};

use rm_group::{Group, Objects, Stores, next_or_none};
use rm_pdu::{Kind, bindings_lengthen, empty_messages_are_short};

/// A law: a request has one reply at most after a journal, and leaves one journal, where it is no SetRequest that reserves
/// storage.
pub fn one_reply<G: Stores + Objects>()
    ensures { (settings : Counting) (journal : Journal) (now : ℕ) (may_write : Bool) (request a b : Message) (after later : Journal)
        → (request.kind ≡ Kind.Set → (index : ℕ) → G.reserves settings journal (given_by request.bindings) index → ⊥)
        → IsReplyBy (G.cells settings journal now) G.objects G.alone (G.together settings journal now nothing_read) (G.reserves settings journal) may_write now journal request.kind request a after
        → IsReplyBy (G.cells settings journal now) G.objects G.alone (G.together settings journal now nothing_read) (G.reserves settings journal) may_write now journal request.kind request b later
        → (a ≡ b) × (after ≡ later) }
{}

/// A law: a reply is the one that its request has where there is memory for all that it reserves, or it denies a SetRequest
/// storage, and leaves the journal.
pub fn granted_or_denied<G: Stores + Objects>()
    ensures { (settings : Counting) (journal : Journal) (now : ℕ) (may_write : Bool) (request reply : Message) (after : Journal)
        → IsReplyBy (G.cells settings journal now) G.objects G.alone (G.together settings journal now nothing_read) (G.reserves settings journal) may_write now journal request.kind request reply after
        → IsGrantedOrDenied (IsGrantedBy (G.cells settings journal now) G.objects G.alone (G.together settings journal now nothing_read) may_write now journal request)
        (G.reserves settings journal) journal request reply (λ later. later ≡ after) }
{}

/// A law: a request whose community has at most 127 octets has a reply.
pub fn every_reply<G: Stores + Objects>()
    ensures { (settings : Counting) (journal : Journal) (now : ℕ) (may_write : Bool) (request : Message) → is_read true request.kind ≡ true
        → length request.community ≤ 127 → (reply : Message) × (after : Journal)
        × IsReplyBy (G.cells settings journal now) G.objects G.alone (G.together settings journal now nothing_read) (G.reserves settings journal) may_write now journal request.kind request reply after }
{
    bindings_lengthen();
    empty_messages_are_short();
    next_or_none();
    cells_are_finite::<G>();
}

/// A law: the cells of a group are finitely many.
pub(crate) fn cells_are_finite<G: Group>()
    ensures { (settings : Counting) (journal : Journal) (now : ℕ) → AreFinite (G.cells settings journal now) }
{}
