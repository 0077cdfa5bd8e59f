ghost use Rattle.std.specs.Prelude.{◌≡◌, ◌≤◌, ◌<◌, ◌+◌, ℕ, List, length, drop, None, Some, IfOk, IfErr, IfSome, MatchResult, if◌then◌else◌, unwrap_or};
ghost use Rattle.rm_edge.specs.Outside.{File, Rose};
ghost use Rattle.rm_edge.specs.Shelves.{KeepsShelf};
ghost use Rattle.rm_pcap.specs.Records.{Broken, time_of};
ghost use Rattle.rm_pcap.specs.Steps.{IsThere, Stops, fault_at, is_late, moment_at, found_at, found_in};
ghost use Rattle.rm_window.specs.Filling.{IsFront};
ghost use Rattle.rm_pcap.specs.Calls.{IsFaultAt, IsBroken};
ghost use Rattle.rm_pcap.specs.Seen.{heading_of, record_of, found_of, Follows, FollowsSeen, IsAllOf, IsNear, IsLong, IsPart, IsPartIn, AreSound};
ghost use Rattle.rm_pcap.specs.declared.fault.PcapFault.TheVariants.{Late};

use crate::fault::PcapFault;
use crate::fields::long_at;
use crate::form::{Form, TimeUnit};
use crate::reach::Reach;
use crate::record::{Heading, MOST_LENGTH, MOST_RECORDS, Part, RECORD_HEADER, Record, Seen};
use crate::start::Start;
use rm_edge::Shelf;
use rm_window::Window;

/// How the octets of a capture are read, where its frames stand, and how far it was read.
#[derive(Clone, Copy)]
pub struct Position {
    pub form: Form,
    pub start: Start,
    pub reach: Reach,
}

// The time in a record's header, in nanoseconds. A fraction isn't checked: one that counts seconds adds them.
#[tactic(auto, unfolding(crate::specs::Records::time_of))]
pub fn time_of(form: Form, octets: &[u8]) -> u64
    requires { 16 ≤ length octets.now }
    ensures { result ≡ time_of form octets.now }
{
    let seconds = u64::from(long_at(form.order, octets, 0));
    let fraction = u64::from(long_at(form.order, octets, 4));
    let nanoseconds = match form.unit {
        TimeUnit::Microseconds => 1000,
        TimeUnit::Nanoseconds => 1,
    };
    seconds * 1_000_000_000 + fraction * nanoseconds
}

impl Position {
    ghost use Rattle.rm_window.specs.Window.{octets_of, room_of};

    // The time in nanoseconds that stands at the lead, and the moment of the record whose header comes first. The moment is None where it has
    // more than 32 bits.
    #[tactic(auto, unfolding(crate::specs::Steps::is_late))]
    fn timing(self, octets: &[u8]) -> (u64, Option<u32>)
        requires { 16 ≤ length octets.now }
        ensures base { result.0 ≡ unwrap_or self.reach.base (time_of self.form octets.now) }
        ensures moment { result.1 ≡ (if is_late self.form self.start self.reach octets.now then None
            else Some (moment_at self.start self.reach (time_of self.form octets.now))) }
    {
        let time = time_of(self.form, octets);
        let base = self.reach.base.unwrap_or(time);
        let since = u64::from(self.start.lead) + time.saturating_sub(base) / 1_000_000;
        let moment = u32::try_from(since.max(u64::from(self.reach.last))).ok();
        (base, moment)
    }

    // What the header that comes first says, or its first fault. The moment of the first record isn't judged here. It is inlined into each of
    // the two copies of `part`.
    #[inline(always)]
    #[tactic(auto, unfolding(crate::specs::Steps::fault_at, crate::specs::Records::included_of, crate::specs::Records::original_of))]
    fn judge(self, octets: &[u8]) -> Result<Heading, PcapFault>
        requires long { 16 ≤ length octets.now }
        requires near { IsNear self.reach }
        ensures judged { MatchResult result
            (λ heading. (fault_at self.form self.start self.reach octets.now ≡ None) × (heading ≡ heading_of self.form self.start self.reach octets.now))
            (λ fault. fault_at self.form self.start self.reach octets.now ≡ Some fault) }
        ensures sound { IfOk result (λ heading. AreSound self.reach heading) }
        ensures place { IfErr result (λ fault. IsFaultAt self.reach fault) }
        ensures late { IfErr result (λ fault. (at : ℕ) → fault ≡ Late at → 0 < self.reach.count) }
    {
        let reach = self.reach;
        if reach.count >= MOST_RECORDS {
            return Err(PcapFault::TooMany);
        }
        let included = long_at(self.form.order, octets, 8);
        if included > MOST_LENGTH {
            return Err(PcapFault::Included(reach.at + 8));
        }
        let original = long_at(self.form.order, octets, 12);
        if original > MOST_LENGTH {
            return Err(PcapFault::Original(reach.at + 12));
        }
        let (base, moment) = self.timing(octets);
        if reach.count > 0 && moment.is_none() {
            return Err(PcapFault::Late(reach.at));
        }
        Ok(Heading {
            included,
            original: included.max(original),
            base,
            moment,
        })
    }

    // The numbers of the record whose header says this. None where its moment has more than 32 bits.
    fn record(self, heading: Heading) -> Option<Record>
        requires near { IsNear self.reach }
        requires sound { AreSound self.reach heading }
        ensures numbers { (octets : List ℕ) → heading ≡ heading_of self.form self.start self.reach octets
            → result ≡ (if is_late self.form self.start self.reach octets then None else Some (record_of self.form self.start self.reach octets)) }
        ensures follows { (octets : List ℕ) → heading ≡ heading_of self.form self.start self.reach octets
            → IfSome result (λ seen. Follows self.reach seen) }
    {
        match heading.moment {
            Some(last) => Some(Record {
                included: heading.included,
                original: heading.original,
                after: Reach {
                    base: Some(heading.base),
                    last,
                    count: self.reach.count + 1,
                    at: self.reach.at + (RECORD_HEADER as u64 + u64::from(heading.included)),
                },
            }),
            None => None,
        }
    }

    /// Sees what of a record stands next in the file, through a window whose octets stand there. Where all of it is in the window already, it
    /// is seen whatever the shelf gives.
    // It is inlined, since each frame that is read passes through here, and what is seen of it is large.
    #[inline(always)]
    pub fn part<S: Shelf>(
        self,
        shelf: &mut S,
        name: &str,
        window: &mut Window,
    ) -> Result<Part, PcapFault>
        requires near { IsNear self.reach }
        requires room { room_of window.old ≡ 327680 }
        ensures shelf { KeepsShelf S.held S.faults shelf.old shelf.new (λ each. each ≡ name.now)
            (result ≡ Err PcapFault.Read) }
        ensures cause { IfErr result (λ fault. fault ≡ PcapFault.Read
            → Rose (S.faults shelf.old name.now) (S.faults shelf.new name.now)) }
        ensures room { room_of window.new ≡ room_of window.old }
        ensures keeps { IsFront (octets_of window.old) (octets_of window.new) }
        ensures part { IfOk result (IsPartIn self.form self.start self.reach (octets_of window.new)) }
        ensures whole { IfOk result (λ part. IsThere self.form self.start self.reach (octets_of window.old) → IsAllOf self.form self.start self.reach (octets_of window.old) part) }
        ensures faultless { IfErr result (λ fault. IsThere self.form self.start self.reach (octets_of window.old) → ⊥) }
        ensures same { IsThere self.form self.start self.reach (octets_of window.old) → octets_of window.new ≡ octets_of window.old }
        ensures stands { (bytes : List ℕ) → S.held shelf.old name.now ≡ File bytes → IsFront (octets_of window.old) (drop self.reach.at bytes)
            → IfOk result (λ part. IsFront (octets_of window.new) (drop self.reach.at bytes)
            × IsPart self.form self.start self.reach (drop self.reach.at bytes) part) }
        ensures faults { IfErr result (IsBroken (S.held shelf.old name.now) self.form self.start self.reach (octets_of window.old)) }
        ensures late { IfErr result (λ fault. (at : ℕ) → fault ≡ Late at → 0 < self.reach.count) }
    {
        let at = self.reach.at;
        let Ok(count) = window.hold(shelf, name, at, RECORD_HEADER) else {
            return Err(PcapFault::Read);
        };
        if count == 0 {
            return Ok(Part::End);
        }
        if count < RECORD_HEADER {
            return Ok(Part::Cut);
        }
        let heading = self.judge(window.octets())?;
        let whole = RECORD_HEADER + heading.included as usize;
        let Ok(count) = window.hold(shelf, name, at, whole) else {
            return Err(PcapFault::Read);
        };
        if count < whole {
            return Ok(Part::Cut);
        }
        Ok(Part::Whole(heading))
    }

    /// Sees what stands next in the file, through a window whose octets stand there.
    pub fn see<S: Shelf>(
        self,
        shelf: &mut S,
        name: &str,
        window: &mut Window,
    ) -> Result<Seen, PcapFault>
        requires near { IsNear self.reach }
        requires room { room_of window.old ≡ 327680 }
        ensures shelf { KeepsShelf S.held S.faults shelf.old shelf.new (λ each. each ≡ name.now)
            (result ≡ Err PcapFault.Read) }
        ensures cause { IfErr result (λ fault. fault ≡ PcapFault.Read
            → Rose (S.faults shelf.old name.now) (S.faults shelf.new name.now)) }
        ensures room { room_of window.new ≡ room_of window.old }
        ensures keeps { IsFront (octets_of window.old) (octets_of window.new) }
        ensures follows { IfOk result (λ seen. FollowsSeen self.reach seen) }
        ensures long { IfOk result (IsLong (octets_of window.new)) }
        ensures found { (bytes : List ℕ) → S.held shelf.old name.now ≡ File bytes → IsFront (octets_of window.old) (drop self.reach.at bytes)
            → IfOk result (λ seen. IsFront (octets_of window.new) (drop self.reach.at bytes)
            × (found_of self.start.interface self.reach (octets_of window.new) seen ≡ found_at self.form self.start self.reach bytes)) }
        ensures faults { IfErr result (IsBroken (S.held shelf.old name.now) self.form self.start self.reach (octets_of window.old)) }
        ensures kept { IfOk result (λ seen. IsThere self.form self.start self.reach (octets_of window.old)
            → found_of self.start.interface self.reach (octets_of window.new) seen ≡ found_in self.form self.start self.reach (octets_of window.old)) }
        ensures broken { IfErr result (λ fault. IsThere self.form self.start self.reach (octets_of window.old)
            → Stops (Broken fault) ≡ found_in self.form self.start self.reach (octets_of window.old)) }
    {
        match self.part(shelf, name, window) {
            Ok(Part::Whole(heading)) => match self.record(heading) {
                Some(record) => Ok(Seen::Whole(record)),
                None => Err(PcapFault::Late(self.reach.at)),
            },
            Ok(Part::End) => Ok(Seen::End),
            Ok(Part::Cut) => Ok(Seen::Cut),
            Err(fault) => Err(fault),
        }
    }
}
