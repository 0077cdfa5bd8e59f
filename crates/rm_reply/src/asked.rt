// The answers to the names of a request, in a draft.
ghost use Rattle.std.specs.Prelude.{◌≤◌, List, take, length, MatchResult};
ghost use Rattle.rm_pdu.specs.Message.{Binding, Message};
ghost use Rattle.rm_reply.specs.Replies.{names_of};
ghost use Rattle.rm_reply.specs.Drafting.{OfCells, IsFound, IsAsked, IsDrafted, Puts, Stops};

use crate::found::Lookup;
use crate::request::Request;
use rm_ber::Room;
use rm_group::{Group, Objects};
use rm_pdu::Draft;

/// Puts the answers to the first names of a request into a draft, up to a place, in their order. Room where they don't all
/// fit; the draft then has those that do, up to the first that doesn't.
pub(crate) fn put_asked<G: Group + Objects>(
    groups: &G,
    lookup: Lookup,
    request: &Request<'_>,
    to: usize,
    now: u32,
    draft: &mut Draft,
) -> Result<(), Room>
    requires asked { (m : Message) × IsAsked request.now m × (to ≤ length m.bindings) }
    requires few { to ≤ 128 }
    ensures { OfCells (G.stands groups.now) (G.askable groups.now) G.cells now (λ cells. (m : Message) (list : List Binding) → IsAsked request.now m → IsDrafted m list draft.old
        → MatchResult result
        (λ done. Puts (IsFound cells G.objects lookup) (take to (names_of m.bindings)) m list draft.new)
        (λ room. Stops (IsFound cells G.objects lookup) (take to (names_of m.bindings)) m list draft.new)) }
{
    for place in 0..to {
        let name = request.bindings.name(request.octets, place);
        let found = lookup.answer(groups, &name, now);
        draft.add(&found.name, &found.value)?;
    }
    Ok(())
}
