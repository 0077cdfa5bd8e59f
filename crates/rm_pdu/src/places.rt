// The places of the bindings of a message.
ghost use Rattle.std.specs.Prelude.{◌≡◌, ◌≤◌, ◌<◌, ◌++◌, ◌∷◌, [], ℕ, length, drop, List, IfSome, Some, slice_get};
ghost use Rattle.rm_val.specs.Val.{Val, val_of, name};
ghost use Rattle.rm_ber.specs.Grammar.{ValueFirst};

use arrayvec::ArrayVec;
use rm_ber::{Reader, values_are_spellable};
use rm_val::{Oid, Value};
use std::marker::Model;

/// The most bindings whose places are kept.
pub(crate) const MOST_KEPT: usize = 128;

/// The offsets of a binding's name and of its value in the octets of the message.
#[derive(Clone, Copy, Debug, Default)]
pub struct Offsets {
    pub name: usize,
    pub value: usize,
}

/// The places of a message's first 128 bindings. The octets themselves stay with the caller.
#[derive(Drop)]
pub struct Places {
    offsets: ArrayVec<Offsets, MOST_KEPT>,
}

impl Model for Places {
    ghost use Rattle.std.specs.Prelude.{List};
    ghost use Rattle.rm_pdu.specs.declared.places.Offsets.{Offsets};

    ghost Value = { List Offsets };

    ghost view = { λ b. b.offsets.items };
}

impl Places {
    ghost use Rattle.rm_val.specs.Spellable.{IsSpellable, HasSpelling};
    ghost use Rattle.rm_pdu.specs.Message.{Binding};
    ghost use Rattle.rm_pdu.specs.Placed.{ArePlaced};

    /// No binding.
    pub fn new() -> Places
        ensures { result ≡ [] }
    {
        Places {
            offsets: ArrayVec::new(),
        }
    }

    /// How many bindings are kept.
    pub fn len(&self) -> usize
        ensures { result ≡ length self.now }
    {
        self.offsets.len()
    }

    /// The name of the binding at a place, counted from 0, in the octets that the bindings were read from.
    pub fn name(&self, bytes: &[u8], place: usize) -> Oid
        requires held { (bindings : List Binding) × ArePlaced bytes.now self.now bindings }
        requires place { place < length self.now }
        ensures name { (bindings : List Binding) → ArePlaced bytes.now self.now bindings
            → IfSome (slice_get bindings place) (λ binding. result ≡ binding.name) }
        ensures spelling { IsSpellable result }
    {
        values_are_spellable();
        let offsets = self.offsets_at(place);
        name_at(bytes, offsets.name)
    }

    /// The value of the binding at a place, counted from 0, in the octets that the bindings were read from.
    pub fn value<'a>(&self, bytes: &'a [u8], place: usize) -> Value<'a>
        requires held { (bindings : List Binding) × ArePlaced bytes.now self.now bindings }
        requires place { place < length self.now }
        ensures value { (bindings : List Binding) → ArePlaced bytes.entry.now self.now bindings
            → IfSome (slice_get bindings place) (λ binding. val_of result ≡ binding.value) }
        ensures spelling { HasSpelling (val_of result) }
    {
        values_are_spellable();
        let offsets = self.offsets_at(place);
        value_at(bytes, offsets.value)
    }

    fn offsets_at(&self, place: usize) -> Offsets
        requires { place < length self.now }
        ensures { slice_get self.now place ≡ Some result }
    {
        self.offsets[place]
    }

    /// Forgets all bindings.
    pub(crate) fn clear(&mut self)
        ensures { self.new ≡ [] }
    {
        self.offsets.clear();
    }

    /// Keeps the places of one more binding, if it is one of the first 128.
    pub(crate) fn keep(&mut self, offsets: Offsets)
        ensures room { length self.old < 128 → self.new ≡ self.old ++ offsets ∷ [] }
        ensures full { 128 ≤ length self.old → self.new ≡ self.old }
    {
        if !self.offsets.is_full() {
            self.offsets.push(offsets);
        }
    }
}

// The name that stands at an offset.
fn name_at(bytes: &[u8], at: usize) -> Oid
    requires { at ≤ length bytes.now }
    ensures { (numbers rest : List ℕ) → ValueFirst (name numbers) rest (drop at bytes.now) → result ≡ numbers }
{
    match Reader::new(&bytes[at..]).name() {
        Ok(name) => name,
        Err(_) => Oid::new(),
    }
}

// The value that stands at an offset.
fn value_at(bytes: &[u8], at: usize) -> Value<'_>
    requires { at ≤ length bytes.now }
    ensures { (v : Val) (rest : List ℕ) → ValueFirst v rest (drop at bytes.entry.now) → val_of result ≡ v }
{
    match Reader::new(&bytes[at..]).value() {
        Ok(value) => value,
        Err(_) => Value::Null,
    }
}
