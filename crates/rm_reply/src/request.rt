// A request, and the drafts of its replies.
ghost use Rattle.std.specs.Prelude.{◌≡◌, ◌≤◌, ◌<◌, ◌+◌, ◌↔◌, IsTrue, IfSome, IfNone, true, false, [], length, All, slice_range, MatchResult};
ghost use Rattle.rm_reply.specs.Replies.{counting};

use crate::names::Names;
use rm_ber::Room;
use rm_group::Assignments;
use rm_pdu::{Draft, Kind, Message, Places, bindings_lengthen};
use rm_val::ErrorStatus;

/// The most octets of a reply.
pub const MOST_REPLY: usize = 1472;

/// The most bindings of a request that is answered but by tooBig.
pub(crate) const MOST_BINDINGS: usize = 128;

/// A request that was read.
#[derive(Drop)]
pub struct Request<'a> {
    /// The octets that it was read from.
    pub octets: &'a [u8],
    /// What they tell of it.
    pub message: Message<'a>,
    /// Where its bindings stand in them.
    pub bindings: Places,
}

impl<'a> Request<'a> {
    ghost use Rattle.rm_val.specs.Spellable.{IsSpellable};
    ghost use Rattle.rm_pdu.specs.Message.{Message as Whole, message_octets};
    ghost use Rattle.rm_pdu.specs.Draft.{drafted};
    ghost use Rattle.rm_reply.specs.Replies.{names_of, response_to, non_repeaters};
    ghost use Rattle.rm_reply.specs.Drafting.{IsAsked};
    ghost use Rattle.rm_reply.specs.Sets.{given_by, returning, is_too_much, IsReturned};

    /// Whether it has more bindings than are answered.
    pub(crate) fn is_long(&self) -> bool
        ensures { (m : Whole) → IsAsked self.now m → IsTrue result ↔ (128 < length m.bindings) }
    {
        self.message.count as usize > MOST_BINDINGS
    }

    /// How many bindings there are.
    pub(crate) fn count(&self) -> usize
        requires { (m : Whole) × IsAsked self.now m × (length m.bindings ≤ 128) }
        ensures { (m : Whole) → IsAsked self.now m → result ≡ length m.bindings }
    {
        self.message.count as usize
    }

    /// The response with this status and this index, and no bindings yet.
    pub(crate) fn begin(&self, status: ErrorStatus, index: u32) -> Draft
        requires asked { (m : Whole) × IsAsked self.now m }
        requires index { index ≤ 128 }
        ensures response { (m : Whole) → IsAsked self.now m → result ≡ drafted (response_to m status index []) }
        ensures fits { (m : Whole) → IsAsked self.now m → length (message_octets (response_to m status index [])) ≤ MOST_REPLY }
    {
        let message = &self.message;
        Draft::new(
            message.community,
            Kind::Response,
            message.id,
            status.number(),
            index as i32,
        )
    }

    /// Puts what the bindings of a SetRequest give into an empty list.
    pub(crate) fn give<const MOST: usize>(&self, given: &mut Assignments<'a, MOST>)
        requires asked { (m : Whole) × IsAsked self.now m × (length m.bindings ≤ 128) × (length m.bindings ≤ MOST) }
        requires empty { given.old ≡ [] }
        ensures { (m : Whole) → IsAsked self.now m → given.new ≡ given_by m.bindings }
    {
        for place in 0..self.count() {
            let name = self.bindings.name(self.octets, place);
            let value = self.bindings.value(self.octets, place);
            given.push(name, value);
        }
    }

    /// The response with the request's own bindings, this status and this index. Room where it would have too many octets.
    pub(crate) fn returning(&self, status: ErrorStatus, index: u32) -> Result<Draft, Room>
        requires asked { (m : Whole) × IsAsked self.now m × (length m.bindings ≤ 128) }
        requires index { index ≤ 128 }
        ensures { (m : Whole) → IsAsked self.now m → MatchResult result
            (λ draft. (draft ≡ drafted (returning m status index)) × (length (message_octets (returning m status index)) ≤ MOST_REPLY))
            (λ room. MOST_REPLY < length (message_octets (returning m status index))) }
    {
        bindings_lengthen();
        let mut draft = self.begin(status, index);
        for place in 0..self.count() {
            let name = self.bindings.name(self.octets, place);
            let value = self.bindings.value(self.octets, place);
            draft.add(&name, &value)?;
        }
        Ok(draft)
    }

    /// The response with the request's own bindings and the greatest index, which is longest. None where there is too much for it.
    pub(crate) fn longest(&self) -> Option<Draft>
        requires { (m : Whole) × IsAsked self.now m }
        ensures some { (m : Whole) → IsAsked self.now m → IfSome result (λ draft. (is_too_much m ≡ false) × IsReturned m draft) }
        ensures none { (m : Whole) → IsAsked self.now m → IfNone result (is_too_much m ≡ true) }
    {
        if self.is_long() {
            return None;
        }
        match self.returning(ErrorStatus::NoError, 128) {
            Ok(draft) => Some(draft),
            Err(_) => None,
        }
    }

    /// Puts the names of the bindings from one place to before another into an empty list.
    pub(crate) fn put_names<const MOST: usize>(
        &self,
        from: usize,
        to: usize,
        names: &mut Names<MOST>,
    )
        requires asked { (m : Whole) × IsAsked self.now m × (to ≤ length m.bindings) }
        requires order { from ≤ to }
        requires few { to ≤ 128 }
        requires room { to ≤ from + MOST }
        requires empty { names.old ≡ [] }
        ensures names { (m : Whole) → IsAsked self.now m → names.new ≡ slice_range (names_of m.bindings) from to }
        ensures spelling { All IsSpellable names.new }
    {
        for place in from..to {
            names.push(self.bindings.name(self.octets, place));
        }
    }

    /// How many of the first names of a GetBulkRequest aren't repeated.
    pub(crate) fn non_repeaters(&self) -> usize
        requires { (m : Whole) × IsAsked self.now m × (length m.bindings ≤ 128) }
        ensures { (m : Whole) → IsAsked self.now m → result ≡ non_repeaters m }
    {
        counting(self.message.first).min(self.message.count) as usize
    }

    /// How many repetitions a GetBulkRequest asks for at most.
    pub(crate) fn repetitions(&self) -> u32
        ensures { (m : Whole) → IsAsked self.now m → result ≡ counting m.second }
    {
        counting(self.message.second)
    }
}

// A number of a GetBulkRequest: a negative one counts as 0 (RFC 1905, section 4.2.3).
fn counting(number: i32) -> u32
    ensures { result ≡ counting number }
{
    if number < 0 { 0 } else { number as u32 }
}
