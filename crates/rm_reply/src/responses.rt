// The responses to requests of every kind.
ghost use Rattle.std.specs.Prelude.{◌≡◌, ◌≤◌, true};
ghost use Rattle.rm_model.specs.Counting.{Counting};
ghost use Rattle.rm_model.specs.Journal.{Journal, last_moment};
ghost use Rattle.rm_pdu.specs.Message.{Message};
ghost use Rattle.rm_pdu.specs.Parse.{is_read};
ghost use Rattle.rm_reply.specs.Drafting.{IsAsked, DraftsOne};
ghost use Rattle.rm_reply.specs.Responses.{IsReplyBy};
ghost use Rattle.rm_model.specs.Readings.{nothing_read};

use crate::reply::reply;
use crate::request::Request;
use crate::set::set;
use rm_group::{Commits, Objects};
use rm_pdu::Draft;
use std::alloc::Global;

/// The response to a request at a moment in milliseconds, at which the groups may be asked, where its community may write or may
/// not (RFC 1905, section 4.2). A SetRequest that is accepted is done.
pub fn respond<G: Commits + Objects>(
    groups: &mut G,
    alloc: Global,
    request: &Request<'_>,
    may_write: bool,
    now: u32,
) -> Draft
    requires asked { (m : Message) × IsAsked request.now m × (is_read true m.kind ≡ true) }
    requires later { G.clock groups.old ≤ now }
    requires stocked { G.stocked groups.old }
    ensures reply { (settings : Counting) (journal : Journal) (m : Message) → G.stands groups.old settings journal
        → last_moment journal ≤ now → G.askable groups.old now → IsAsked request.now m
        → (after : Journal) × G.stands groups.new settings after × (last_moment after ≤ now)
        × DraftsOne (λ reply. IsReplyBy (G.cells settings journal now) G.objects G.alone (G.together settings journal now nothing_read) (G.reserves settings journal) may_write now journal m.kind m reply after) result }
    ensures clock { G.clock groups.new ≤ now }
    ensures frames { G.frames groups.new ≡ G.frames groups.old }
    ensures stocked { G.stocked groups.new }
{
    match reply(groups, request, now) {
        Some(draft) => draft,
        None => set(groups, alloc, request, may_write, now),
    }
}
