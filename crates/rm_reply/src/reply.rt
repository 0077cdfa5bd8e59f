// The replies to requests.
ghost use Rattle.std.specs.Prelude.{◌≡◌, ◌≤◌, ◌+◌, List, length, drop, All, IfSome, is_some};
ghost use Rattle.rm_val.specs.Spellable.{IsSpellable};
ghost use Rattle.rm_pdu.specs.Message.{Binding, Message};
ghost use Rattle.rm_reply.specs.Answered.{IsNextBinding};
ghost use Rattle.rm_reply.specs.Replies.{IsWholeReply, IsBulkReply, IsReply, is_built, counting, names_of};
ghost use Rattle.rm_reply.specs.Fronts.{AreRepetitions};
ghost use Rattle.rm_reply.specs.Drafting.{OfCells, IsFound, IsAsked, IsDrafted, DraftsOne, PutsLongest};

use crate::asked::put_asked;
use crate::found::Lookup;
use crate::laws::cells_are_finite;
use crate::names::Names;
use crate::repetition::put_repetition;
use crate::request::{MOST_BINDINGS, Request};
use rm_group::{Group, Objects, next_or_none};
use rm_pdu::{Draft, Kind, bindings_lengthen};
use rm_val::ErrorStatus;

// How many repeated names are few, and how many are some. A list of as many is made faster, and takes less of the stack.
const FEW_NAMES: usize = 4;

const SOME_NAMES: usize = 32;

/// The reply to a request at a moment in milliseconds (RFC 1905, section 4.2). None for a SetRequest.
pub(crate) fn reply<G: Group + Objects>(
    groups: &G,
    request: &Request<'_>,
    now: u32,
) -> Option<Draft>
    requires { (m : Message) × IsAsked request.now m }
    ensures built { is_some result ≡ is_built request.now.message.kind }
    ensures reply { OfCells (G.stands groups.now) (G.askable groups.now) G.cells now (λ cells. (m : Message) → IsAsked request.now m
        → IfSome result (DraftsOne (IsReply cells G.objects m))) }
{
    let few = !request.is_long();
    match request.message.kind {
        Kind::Get if few => Some(whole(groups, Lookup::Exact, request, now)),
        Kind::Next if few => Some(whole(groups, Lookup::Above, request, now)),
        Kind::Bulk if few => Some(bulk(groups, request, now)),
        Kind::Get | Kind::Next | Kind::Bulk => Some(request.begin(ErrorStatus::TooBig, 0)),
        _ => None,
    }
}

// The reply to a GetRequest or a GetNextRequest: the answers to all names, or tooBig.
fn whole<G: Group + Objects>(groups: &G, lookup: Lookup, request: &Request<'_>, now: u32) -> Draft
    requires { (m : Message) × IsAsked request.now m × (length m.bindings ≤ 128) }
    ensures { OfCells (G.stands groups.now) (G.askable groups.now) G.cells now (λ cells. (m : Message) → IsAsked request.now m
        → DraftsOne (IsWholeReply (IsFound cells G.objects lookup) m) result) }
{
    bindings_lengthen();
    next_or_none();
    cells_are_finite::<G>();
    let mut draft = request.begin(ErrorStatus::NoError, 0);
    match put_asked(groups, lookup, request, request.count(), now, &mut draft) {
        Ok(()) => draft,
        Err(_) => request.begin(ErrorStatus::TooBig, 0),
    }
}

// The reply to a GetBulkRequest: as many answers as fit.
fn bulk<G: Group + Objects>(groups: &G, request: &Request<'_>, now: u32) -> Draft
    requires { (m : Message) × IsAsked request.now m × (length m.bindings ≤ 128) }
    ensures { OfCells (G.stands groups.now) (G.askable groups.now) G.cells now (λ cells. (m : Message) → IsAsked request.now m
        → DraftsOne (IsBulkReply (IsNextBinding cells) m) result) }
{
    bindings_lengthen();
    let mut draft = request.begin(ErrorStatus::NoError, 0);
    let fixed = request.non_repeaters();
    let Ok(()) = put_asked(groups, Lookup::Above, request, fixed, now, &mut draft) else {
        return draft;
    };
    repeat_asked(groups, request, fixed, now, &mut draft);
    draft
}

// Puts the repetitions for the names of a request from a place on behind the bindings of a draft.
fn repeat_asked<G: Group + Objects>(
    groups: &G,
    request: &Request<'_>,
    from: usize,
    now: u32,
    draft: &mut Draft,
)
    requires { (m : Message) × IsAsked request.now m × (length m.bindings ≤ 128) × (from ≤ length m.bindings) }
    ensures { OfCells (G.stands groups.now) (G.askable groups.now) G.cells now (λ cells. (m : Message) (list : List Binding) → IsAsked request.now m → IsDrafted m list draft.old
        → PutsLongest (AreRepetitions (IsNextBinding cells) (counting m.second) (drop from (names_of m.bindings))) m list draft.new) }
{
    let most = request.repetitions();
    let count = request.count() - from;
    if count <= FEW_NAMES {
        return repeat_listed::<G, FEW_NAMES>(groups, request, most, from, now, draft);
    }
    if count <= SOME_NAMES {
        return repeat_listed::<G, SOME_NAMES>(groups, request, most, from, now, draft);
    }
    repeat_listed::<G, MOST_BINDINGS>(groups, request, most, from, now, draft)
}

// Puts so many repetitions at most for these names. Their list has room for that many, in a frame of its own.
#[inline(never)]
fn repeat_listed<G: Group + Objects, const MOST: usize>(
    groups: &G,
    request: &Request<'_>,
    most: u32,
    from: usize,
    now: u32,
    draft: &mut Draft,
)
    requires asked { (m : Message) × IsAsked request.now m × (length m.bindings ≤ 128) × (from ≤ length m.bindings) × (length m.bindings ≤ from + MOST) }
    requires small { MOST ≤ 128 }
    ensures { OfCells (G.stands groups.now) (G.askable groups.now) G.cells now (λ cells. (m : Message) (list : List Binding) → IsAsked request.now m → IsDrafted m list draft.old
        → PutsLongest (AreRepetitions (IsNextBinding cells) most (drop from (names_of m.bindings))) m list draft.new) }
{
    let mut names = Names::<MOST>::new();
    request.put_names(from, request.count(), &mut names);
    repeat(groups, &mut names, most, now, draft);
}

// Puts repetitions for names behind the bindings of a draft, as many as are asked for and fit. The last one is wholly
// endOfMibView if any is.
fn repeat<G: Group + Objects, const MOST: usize>(
    groups: &G,
    names: &mut Names<MOST>,
    most: u32,
    now: u32,
    draft: &mut Draft,
)
    requires { All IsSpellable names.old }
    ensures { OfCells (G.stands groups.now) (G.askable groups.now) G.cells now (λ cells. (m : Message) (list : List Binding) → IsDrafted m list draft.old
        → PutsLongest (AreRepetitions (IsNextBinding cells) most names.old) m list draft.new) }
{
    bindings_lengthen();
    for _ in 0..most {
        let Ok(is_end) = put_repetition(groups, names, now, draft) else {
            return;
        };
        if is_end {
            return;
        }
    }
}
