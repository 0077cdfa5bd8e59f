// A repetition of a GetBulkRequest, in a draft.
ghost use Rattle.std.specs.Prelude.{List, All, OnOk, MatchResult};
ghost use Rattle.rm_val.specs.Spellable.{IsSpellable};
ghost use Rattle.rm_pdu.specs.Message.{Binding, Message};
ghost use Rattle.rm_reply.specs.Answered.{IsNextBinding};
ghost use Rattle.rm_reply.specs.Drafting.{OfCells, IsDrafted, PutsNext, Stops};

use crate::found::Lookup;
use crate::names::Names;
use rm_ber::Room;
use rm_group::{Group, Objects};
use rm_pdu::Draft;

/// Puts the next variables behind names into a draft, one for each, in their order. The list becomes that of their names.
/// Answers whether each value is endOfMibView. Room where they don't all fit; the draft then has those that do, up to the
/// first that doesn't.
pub(crate) fn put_repetition<G: Group + Objects, const MOST: usize>(
    groups: &G,
    names: &mut Names<MOST>,
    now: u32,
    draft: &mut Draft,
) -> Result<bool, Room>
    requires { All IsSpellable names.old }
    ensures put { OfCells (G.stands groups.now) (G.askable groups.now) G.cells now (λ cells. (m : Message) (list : List Binding) → IsDrafted m list draft.old
        → MatchResult result
        (λ is_end. PutsNext (IsNextBinding cells) names.old m list names.new is_end draft.new)
        (λ room. Stops (IsNextBinding cells) names.old m list draft.new)) }
    ensures spelling { OnOk result (All IsSpellable names.new) }
{
    let mut is_end = true;
    for place in 0..names.len() {
        let found = Lookup::Above.answer(groups, names.at(place), now);
        draft.add(&found.name, &found.value)?;
        is_end &= found.is_end();
        names.set(place, found.name);
    }
    Ok(is_end)
}
