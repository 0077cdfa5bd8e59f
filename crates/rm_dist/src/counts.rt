// What a control row has counted.
ghost use Rattle.std.specs.Prelude.{◌≡◌, ◌<◌, ◌≤◌, [], length, nat_lt, find, is_some, slice_index_or, slice_set, IfOk, IfErr};
ghost use Rattle.std.specs.Option.{option_copied, option_map};
ghost use Rattle.rm_model.specs.Numbers.{IsNumberAbove};
ghost use Rattle.rm_path.specs.Slots.{protocol_in};
ghost use Rattle.rm_dist.specs.Resting.{has_local, is_local, sifted};
ghost use Rattle.rm_dist.specs.Counts.{count_in, no_count, with_frame, with_mark, with_marks, IsFirstLocal, IsFoundAt, IsMissingAt, Rising};

use crate::count::Count;
use arrayvec::ArrayVec;
use rm_path::{Protocols, SLOTS};
use std::marker::Model;

/// How many protocols are counted at most: as many as can be active.
const MOST_COUNTS: usize = 32;

/// What a control row has counted of each protocol, in the order of their local indexes.
#[derive(Drop)]
pub struct Counts {
    counts: ArrayVec<Count, MOST_COUNTS>,
}

impl Model for Counts {
    ghost use Rattle.std.specs.Prelude.{List};
    ghost use Rattle.rm_dist.specs.declared.count.Count.{Count};
    ghost use Rattle.rm_dist.specs.Counts.{Rising};

    ghost Value = { List Count };

    ghost view = { λ s. s.counts.items };

    ghost invariant = { λ s. Rising s.counts.items };
}

impl Counts {
    /// Nothing is counted yet.
    pub fn new() -> Counts
        ensures { result ≡ [] }
    {
        Counts {
            counts: ArrayVec::new(),
        }
    }

    /// What is counted of the protocol with a local index. None where there is nothing.
    pub fn get(&self, local: u32) -> Option<&Count>
        ensures { option_copied result ≡ count_in self.now local }
    {
        self.counts
            .as_slice()
            .iter()
            .find(|count| count.local == local)
    }

    /// The least local index of a protocol of which something is counted. None where nothing is.
    pub fn first(&self) -> Option<u32>
        ensures { IsFirstLocal self.now result }
    {
        local_of(self.counts.as_slice().first())
    }

    /// The least local index above one of a protocol of which something is counted. None where there is none above.
    pub fn above(&self, local: u32) -> Option<u32>
        ensures { IsNumberAbove (λ n. is_some (count_in self.now n)) local result }
    {
        local_of(count_above(self.counts.as_slice(), local))
    }

    /// Counts one frame more of a protocol, by how many octets it has.
    pub fn add(&mut self, local: u32, octets: u32)
        ensures { self.new ≡ with_mark self.old local octets }
    {
        match search(self.counts.as_slice(), local) {
            Ok(place) => add_in(&mut self.counts, place, octets),
            Err(place) => {
                if !self.counts.is_full() {
                    self.counts.insert(place, Count::first(local, octets));
                }
            }
        }
    }

    /// Counts one frame more of some protocols.
    pub fn add_all(&mut self, locals: &[u32], octets: u32)
        ensures { self.new ≡ with_marks self.old locals.now octets }
    {
        if let Some((local, others)) = locals.split_first() {
            self.add_all(others, octets);
            self.add(*local, octets);
        }
    }

    /// Takes the counts away of protocols that aren't in slots.
    pub fn sift(&mut self, protocols: &Protocols)
        ensures { self.new ≡ sifted protocols.now self.old }
    {
        self.counts = sifted(self.counts.as_slice(), protocols);
    }
}

// The place of a local index among counts, or that at which it would have its count.
fn search(counts: &[Count], local: u32) -> Result<usize, usize>
    requires { Rising counts.now }
    ensures found { IfOk result (IsFoundAt counts.now local) }
    ensures missing { IfErr result (IsMissingAt counts.now local) }
{
    counts.binary_search_by_key(&local, |count| count.local)
}

// Counts one frame more at a place, where counts are kept.
fn add_in(counts: &mut ArrayVec<Count, MOST_COUNTS>, place: usize, octets: u32)
    requires { place < length counts.old.items }
    ensures { counts.new.items ≡ slice_set counts.old.items place (with_frame octets (slice_index_or counts.old.items place no_count)) }
{
    add_at(counts.as_mut_slice(), place, octets);
}

// Counts one frame more at a place.
fn add_at(counts: &mut [Count], place: usize, octets: u32)
    requires { place < length counts.old }
    ensures { counts.new ≡ slice_set counts.old place (with_frame octets (slice_index_or counts.old place no_count)) }
{
    counts[place].add(octets);
}

// The counts of protocols that are in slots.
fn sifted(counts: &[Count], protocols: &Protocols) -> ArrayVec<Count, MOST_COUNTS>
    requires { length counts.now ≤ 32 }
    ensures { result.items ≡ sifted protocols.now counts.now }
{
    let mut kept = ArrayVec::new();
    for count in counts {
        if has_local(protocols, count.local) {
            kept.push(*count);
        }
    }
    kept
}

// Whether a slot has a protocol with a local index.
fn has_local(protocols: &Protocols, local: u32) -> bool
    ensures { result ≡ has_local protocols.now local }
{
    for slot in 0..SLOTS as u8 {
        if is_local(protocols, slot, local) {
            return true;
        }
    }
    false
}

// Whether the protocol in a slot has a local index.
fn is_local(protocols: &Protocols, slot: u8, local: u32) -> bool
    requires { slot < 32 }
    ensures value { result ≡ is_local local (protocol_in protocols.now slot) }
    ensures count { length protocols.now ≡ 32 }
{
    match protocols.get(slot) {
        Some(protocol) => protocol.local == local,
        None => false,
    }
}

// The first count of a local index above one.
fn count_above(counts: &[Count], local: u32) -> Option<&Count>
    ensures { option_copied result ≡ find (λ count. nat_lt local count.local) counts.now }
{
    counts.iter().find(|count| local < count.local)
}

// The local index of a count, if there is one.
fn local_of(count: Option<&Count>) -> Option<u32>
    ensures { result ≡ option_map (λ count. count.local) (option_copied count.entry) }
{
    match count {
        Some(count) => Some(count.local),
        None => None,
    }
}
