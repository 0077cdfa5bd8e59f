// The replies to SetRequests.
ghost use Rattle.std.specs.Prelude.{◌≡◌, ◌≤◌, length};
ghost use Rattle.rm_pdu.specs.Message.{Message};
ghost use Rattle.rm_model.specs.Judgement.{IsFirstFault, unless};
ghost use Rattle.rm_val.specs.declared.error.ErrorStatus.TheVariants.{NotWritable};
ghost use Rattle.rm_group.specs.Alone.{alone_at, AreFineAlone, IsWithin};
ghost use Rattle.rm_pdu.specs.Draft.{drafted};
ghost use Rattle.rm_reply.specs.Drafting.{LeadsOn, IsAsked, DraftsOne};
ghost use Rattle.rm_reply.specs.Sets.{alone_among, given_by, is_barred, returning, telling, IsReturned, Judges, IsSetReply};
ghost use Rattle.rm_model.specs.Readings.{nothing_read};

use crate::request::{MOST_BINDINGS, Request};
use crate::unread::Unread;
use rm_group::{
    Assignments, Assigns, Commits, Group, Objects, lower_verdict, order_does_not_matter,
};
use rm_model::Verdict;
use rm_pdu::{Draft, index_128_is_longest};
use rm_val::ErrorStatus;
use std::alloc::Global;

// How many bindings are few, and how many are some. A list of as many is made faster, and takes less of the stack.
const FEW_BINDINGS: usize = 8;

const SOME_BINDINGS: usize = 64;

/// Answers a SetRequest at a moment in milliseconds, at which the groups may be asked, where its community may write or may not
/// (RFC 1905, section 4.2.5).
/// Where it is accepted, all its values act at once. Memory is asked for only where it makes a row valid that takes storage.
pub(crate) fn set<G: Commits + Objects>(
    groups: &mut G,
    alloc: Global,
    request: &Request<'_>,
    may_write: bool,
    now: u32,
) -> Draft
    requires asked { (m : Message) × IsAsked request.now m }
    requires later { G.clock groups.old ≤ now }
    requires stocked { G.stocked groups.old }
    ensures reply { (m : Message) → IsAsked request.now m → LeadsOn (G.stands groups.old) (G.stands groups.new) (G.askable groups.old now) now (λ settings journal after.
        DraftsOne (λ reply. IsSetReply (alone_among G.objects G.alone) (G.together settings journal now nothing_read) (G.reserves settings journal) may_write now journal m reply after) result) }
    ensures clock { G.clock groups.new ≤ now }
    ensures frames { G.frames groups.new ≡ G.frames groups.old }
    ensures stocked { G.stocked groups.new }
{
    let Some(draft) = request.longest() else {
        return request.begin(ErrorStatus::TooBig, 0);
    };
    if is_barred(may_write, request) {
        return telling(draft, ErrorStatus::NoAccess, 1);
    }
    let verdict = perform_asked(groups, alloc, request, now);
    told(draft, verdict)
}

// Whether a request gives a value to a variable, where its community may write or may not.
fn is_barred(may_write: bool, request: &Request<'_>) -> bool
    requires { (m : Message) × IsAsked request.now m × (length m.bindings ≤ 128) }
    ensures { (m : Message) → IsAsked request.now m → result ≡ is_barred may_write m }
{
    !may_write && request.count() > 0
}

// The response that tells a verdict, from that with the greatest index.
fn told(draft: Draft, verdict: Verdict) -> Draft
    requires returned { (m : Message) × IsReturned m draft }
    requires within { IsWithin 128 verdict }
    ensures { (m : Message) → IsReturned m draft → result ≡ drafted (telling m verdict) }
{
    match verdict {
        Verdict::Fine => telling(draft, ErrorStatus::NoError, 0),
        Verdict::Wrong { status, index } => telling(draft, status, index),
    }
}

// The response with this status and this index, from that with the greatest index.
fn telling(mut draft: Draft, status: ErrorStatus, index: u32) -> Draft
    requires returned { (m : Message) × IsReturned m draft }
    requires index { index ≤ 128 }
    ensures { (m : Message) → IsReturned m draft → result ≡ drafted (returning m status index) }
{
    index_128_is_longest();
    draft.tell(status.number(), index as i32);
    draft
}

// Performs what the bindings of a request give, from a list that has not much more room than they need.
fn perform_asked<G: Commits + Objects>(
    groups: &mut G,
    alloc: Global,
    request: &Request<'_>,
    now: u32,
) -> Verdict
    requires asked { (m : Message) × IsAsked request.now m × (length m.bindings ≤ 128) }
    requires later { G.clock groups.old ≤ now }
    requires stocked { G.stocked groups.old }
    ensures judged { (m : Message) → IsAsked request.now m → LeadsOn (G.stands groups.old) (G.stands groups.new) (G.askable groups.old now) now (λ settings journal after.
        Judges (alone_among G.objects G.alone) (G.together settings journal now nothing_read) (G.reserves settings journal) now journal (given_by m.bindings) result after) }
    ensures within { IsWithin 128 result }
    ensures clock { G.clock groups.new ≤ now }
    ensures frames { G.frames groups.new ≡ G.frames groups.old }
    ensures stocked { G.stocked groups.new }
{
    let count = request.count();
    if count <= FEW_BINDINGS {
        return perform_listed::<G, FEW_BINDINGS>(groups, alloc, request, now);
    }
    if count <= SOME_BINDINGS {
        return perform_listed::<G, SOME_BINDINGS>(groups, alloc, request, now);
    }
    perform_listed::<G, MOST_BINDINGS>(groups, alloc, request, now)
}

// Performs what the bindings of a request give. Their list has room for that many, in a frame of its own.
#[inline(never)]
fn perform_listed<G: Commits + Objects, const MOST: usize>(
    groups: &mut G,
    alloc: Global,
    request: &Request<'_>,
    now: u32,
) -> Verdict
    requires asked { (m : Message) × IsAsked request.now m × (length m.bindings ≤ 128) × (length m.bindings ≤ MOST) }
    requires small { MOST ≤ 128 }
    requires later { G.clock groups.old ≤ now }
    requires stocked { G.stocked groups.old }
    ensures judged { (m : Message) → IsAsked request.now m → LeadsOn (G.stands groups.old) (G.stands groups.new) (G.askable groups.old now) now (λ settings journal after.
        Judges (alone_among G.objects G.alone) (G.together settings journal now nothing_read) (G.reserves settings journal) now journal (given_by m.bindings) result after) }
    ensures within { IsWithin 128 result }
    ensures clock { G.clock groups.new ≤ now }
    ensures frames { G.frames groups.new ≡ G.frames groups.old }
    ensures stocked { G.stocked groups.new }
{
    let mut given = Assignments::<MOST>::new();
    request.give(&mut given);
    perform(groups, alloc, &given, now)
}

// Judges a Set at a moment in milliseconds, at which the groups may be asked, and does it where nothing is wrong with it and there
// is memory for it.
fn perform<G: Commits + Objects, A: Assigns>(
    groups: &mut G,
    alloc: Global,
    set: &A,
    now: u32,
) -> Verdict
    requires later { G.clock groups.old ≤ now }
    requires stocked { G.stocked groups.old }
    ensures judged { LeadsOn (G.stands groups.old) (G.stands groups.new) (G.askable groups.old now) now (λ settings journal after.
        Judges (alone_among G.objects G.alone) (G.together settings journal now nothing_read) (G.reserves settings journal) now journal (A.bindings set.now) result after) }
    ensures within { IsWithin (length (A.bindings set.now)) result }
    ensures clock { G.clock groups.new ≤ now }
    ensures frames { G.frames groups.new ≡ G.frames groups.old }
    ensures stocked { G.stocked groups.new }
{
    order_does_not_matter();
    if let Verdict::Wrong { status, index } = judge_alone(groups, set) {
        return Verdict::Wrong { status, index };
    }
    if let Verdict::Wrong { status, index } = groups.judge_rows(set, now, &Unread) {
        return Verdict::Wrong { status, index };
    }
    match groups.prepare(alloc, set, now, &Unread) {
        Ok(()) => {
            groups.commit(set, now);
            Verdict::Fine
        }
        Err(denied) => Verdict::Wrong {
            status: ErrorStatus::ResourceUnavailable,
            index: denied.index,
        },
    }
}

// The first pass of a Set: each binding alone, among all objects that there are.
fn judge_alone<G: Group + Objects, A: Assigns>(groups: &G, set: &A) -> Verdict
    ensures alone { let bindings = A.bindings set.now in IsFirstFault (length bindings) (alone_at (alone_among G.objects G.alone) bindings) result }
    ensures groups { result ≡ Verdict.Fine → AreFineAlone G.alone (A.bindings set.now) }
{
    lower_verdict(judge_objects::<G, A>(set), groups.judge_alone(set))
}

// What is wrong with the names alone: notWritable where one begins with no object that there is.
fn judge_objects<G: Objects, A: Assigns>(set: &A) -> Verdict
    ensures { let bindings = A.bindings set.now in IsFirstFault (length bindings) (alone_at (λ name value. unless (G.objects name) NotWritable) bindings) result }
{
    for place in 0..set.count() {
        if !G::has_object(set.name(place)) {
            return Verdict::Wrong {
                status: ErrorStatus::NotWritable,
                index: place as u32 + 1,
            };
        }
    }
    Verdict::Fine
}
