// Laws of replies, and of the samples that are due. The bodies cite the laws of messages and of cells, and do nothing else.
ghost use Rattle.std.specs.Prelude.{◌≡◌, ℕ, true, List, ◌∷◌, None};
ghost use Rattle.rm_model.specs.Journal.{Frame, Journal, passes};
ghost use Rattle.rm_pdu.specs.Message.{Message};
ghost use Rattle.rm_pdu.specs.Parse.{IsParse, message};
ghost use Rattle.rm_settings.specs.declared.settings.Settings.{Settings};
ghost use Rattle.rm_agent.specs.Answers.{reason_for, IsReplyAfter};
ghost use Rattle.rm_reply.specs.Sets.{given_by};
ghost use Rattle.rm_agent.specs.Groups.{Reserves};
ghost use Rattle.rm_agent.specs.Orderly.{NoneIsDue, IsOrderly};
ghost use Rattle.rm_agent.specs.Advance.{Notification, IsAdvanced};

use crate::groups::Groups;
use rm_pdu::Kind;
use rm_reply::{every_reply as request_has_reply, one_reply as reply_is_one};

/// A law: a request has one reply at most after a journal, and leaves one journal, where it is no SetRequest that reserves
/// storage.
pub fn one_reply()
    ensures { (settings : Settings) (journal : Journal) (now : ℕ) (request a b : Message) (after later : Journal)
        → (request.kind ≡ Kind.Set → (index : ℕ) → Reserves journal (given_by request.bindings) index → ⊥)
        → IsReplyAfter settings journal now request a after → IsReplyAfter settings journal now request b later → (a ≡ b)
        × (after ≡ later) }
{
    reply_is_one::<Groups>();
}

/// A law: a datagram that isn't dropped has a reply.
pub fn every_reply()
    ensures { (settings : Settings) (journal : Journal) (now : ℕ) (datagram : List ℕ) (request : Message)
        → IsParse true datagram (message request)
        → reason_for settings (message request) ≡ None → (reply : Message) × (after : Journal)
        × IsReplyAfter settings journal now request reply after }
{
    request_has_reply::<Groups>();
}

/// A law: from an orderly journal on, the samples that are due up to a moment come to an end.
pub fn every_advance()
    ensures { (settings : Settings) (to : ℕ) (journal : Journal) → IsOrderly journal → (sent : List Notification) × (after : Journal)
        × IsAdvanced settings to journal sent after }
{}

/// A law: they come in one way.
pub fn one_advance()
    ensures { (settings : Settings) (to : ℕ) (journal : Journal) (sent others : List Notification) (after later : Journal)
        → IsAdvanced settings to journal sent after → IsAdvanced settings to journal others later → (sent ≡ others) × (after ≡ later) }
{}

/// A law: they leave an orderly journal, after which no sample is due up to the moment.
pub fn advance_is_orderly()
    ensures { (settings : Settings) (to : ℕ) (journal : Journal) (sent : List Notification) (after : Journal)
        → IsOrderly journal → IsAdvanced settings to journal sent after → IsOrderly after × NoneIsDue to after }
{}

/// A law: a frame leaves an orderly journal, where no sample is due up to its moment.
pub fn frame_is_orderly()
    ensures { (journal : Journal) (frame : Frame) → IsOrderly journal → NoneIsDue frame.moment journal
        → IsOrderly (passes frame ∷ journal) }
{}

/// A law: a reply leaves an orderly journal, where no sample is due up to its moment.
pub fn reply_is_orderly()
    ensures { (settings : Settings) (journal : Journal) (now : ℕ) (request reply : Message) (after : Journal)
        → IsOrderly journal → NoneIsDue now journal → IsReplyAfter settings journal now request reply after → IsOrderly after }
{}
