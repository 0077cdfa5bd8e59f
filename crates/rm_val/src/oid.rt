// The names of objects.
ghost use Rattle.std.specs.Prelude.{◌≡◌, ℕ, ◌+◌, ◌<◌, ◌≤◌, ◌↔◌, List, [], ◌∷◌, ◌++◌, length, All, IsTrue, IsOk, IfOk, OnOk, OnErr, IsSome, IfSome, OnSome, IfNone, slice_get, slice_index, nat_eq};
ghost use Rattle.std.specs.Ordering.{nat_cmp};
ghost use Rattle.std.specs.Cmp.{IsTotalOrder};
ghost use Rattle.std.specs.Cmp.Lexicographic.{slice_cmp};
ghost use Rattle.std.specs.Io.{StartsWith};
ghost use Rattle.std.specs.List.{starts_with};
ghost use Rattle.rm_val.specs.Oid.{counted, HasCountedAt};

use crate::error::Full;
use arrayvec::ArrayVec;
use std::cmp::Ordering;
use std::marker::Model;

/// An OBJECT IDENTIFIER: a list of at most 128 numbers, the outermost first. It is kept inline.
#[derive(Drop)]
pub struct Oid {
    numbers: ArrayVec<u32, 128>,
}

impl Model for Oid {
    ghost use Rattle.std.specs.Prelude.{ℕ, List};

    ghost Value = { List ℕ };

    ghost view = { λ s. s.numbers.items };
}

impl Oid {
    /// The empty list.
    pub fn new() -> Oid
        ensures { result ≡ [] }
    {
        Oid {
            numbers: ArrayVec::new(),
        }
    }

    /// These numbers. Full where there are more than 128.
    pub fn from_slice(numbers: &[u32]) -> Result<Oid, Full>
        ensures room { IsOk result ↔ (length numbers.now ≤ 128) }
        ensures ok { IfOk result (λ oid. oid ≡ numbers.now) }
    {
        match ArrayVec::try_from(numbers) {
            Ok(numbers) => Ok(Oid { numbers }),
            Err(_) => Err(Full),
        }
    }

    /// Appends a number. Full where there are 128 already; the list is then as before.
    pub fn push(&mut self, number: u32) -> Result<(), Full>
        ensures room { IsOk result ↔ (length self.old < 128) }
        ensures ok { OnOk result (self.new ≡ self.old ++ number ∷ []) }
        ensures err { OnErr result (self.new ≡ self.old) }
    {
        self.numbers.try_push(number).map_err(|_| Full)
    }

    /// Appends octets after their count, one number for each (RFC 1902, section 7.7). Full where
    /// they don't all fit; the list is then as before.
    pub fn put_counted(&mut self, octets: &[u8]) -> Result<(), Full>
        ensures room { IsOk result ↔ (length self.old + length (counted octets.now) ≤ 128) }
        ensures ok { OnOk result (self.new ≡ self.old ++ counted octets.now) }
        ensures stands { OnOk result (HasCountedAt self.new (length self.old) octets.now) }
        ensures err { OnErr result (self.new ≡ self.old) }
    {
        if octets.len() >= self.numbers.remaining_capacity() {
            return Err(Full);
        }
        self.numbers.push(octets.len() as u32);
        for &octet in octets {
            self.numbers.push(u32::from(octet));
        }
        Ok(())
    }

    /// How many numbers there are.
    pub fn len(&self) -> usize
        ensures value { result ≡ length self.now }
        ensures fits { result ≤ 128 }
    {
        self.numbers.len()
    }

    /// The number at a place, counted from 0.
    pub fn at(&self, place: usize) -> u32
        requires { place < length self.now }
        ensures { result ≡ slice_index self.now place }
    {
        self.numbers[place]
    }

    /// The same numbers once more.
    pub fn copied(&self) -> Oid
        ensures { result ≡ self.now }
    {
        Oid::from_slice(&self.numbers).unwrap()
    }

    /// The order of names: the first numbers that differ decide, and a proper prefix is less.
    #[tactic(auto, using(crate::proofs::Order::order_total, crate::proofs::Order::equal_alone))]
    pub fn compare(&self, other: &Oid) -> Ordering
        ensures value { result ≡ slice_cmp nat_cmp self.now other.now }

        // This order is total, and a list ranks as equal to itself alone.
        ensures total { IsTotalOrder (slice_cmp nat_cmp) }
        ensures equal { (result ≡ Ordering.Equal) ↔ (self.now ≡ other.now) }
    {
        self.numbers.cmp(&other.numbers)
    }

    /// Whether the first numbers are those of `front`.
    pub fn starts_with(&self, front: &Oid) -> bool
        ensures value { result ≡ starts_with nat_eq self.now front.now }
        ensures front { IsTrue result ↔ StartsWith self.now front.now }
    {
        self.numbers.starts_with(&front.numbers)
    }

    /// Reads the number at the place `from`, and moves `from` past it. None where no number
    /// stands there; `from` is then as before.
    pub fn take_int(&self, from: &mut usize) -> Option<u32>
        ensures value { result ≡ slice_get self.now from.old }
        ensures past { OnSome result (from.new ≡ from.old + 1) }
        ensures stays { IfNone result (from.new ≡ from.old) }
    {
        let number = *self.numbers.get(*from)?;
        *from += 1;
        Some(number)
    }

    /// Reads a count at the place `from` and then that many octets, puts them into `into` in
    /// place of what it held, and moves `from` past them. None where there is no count, where
    /// fewer numbers follow than it says, or where one of these is above 255; `from` and `into`
    /// are then as before.
    pub fn take_counted(&self, from: &mut usize, into: &mut ArrayVec<u8, 128>) -> Option<()>
        ensures some { OnSome result (HasCountedAt self.now from.old into.new.items) }

        // Whatever octets stand there after their count are read.
        ensures every { (octets : List ℕ) → HasCountedAt self.now from.old octets
            → IsSome result × (into.new.items ≡ octets) }

        ensures past { OnSome result (from.new ≡ from.old + length (counted into.new.items)) }
        ensures from_stays { IfNone result (from.new ≡ from.old) }
        ensures into_stays { IfNone result (into.new.items ≡ into.old.items) }
    {
        let (&count, numbers) = self.numbers.get(*from..)?.split_first()?;
        let octets = octets_of(numbers.get(..count as usize)?)?;
        *from += 1 + octets.len();
        *into = octets;
        Some(())
    }
}

// The numbers as octets. None where one is above 255.
fn octets_of(numbers: &[u32]) -> Option<ArrayVec<u8, 128>>
    requires { length numbers.now ≤ 128 }
    ensures some { IsSome result ↔ All (λ n. n < 256) numbers.now }
    ensures value { IfSome result (λ octets. octets.items ≡ numbers.now) }
{
    let mut octets = ArrayVec::new();
    for &number in numbers {
        octets.push(u8::try_from(number).ok()?);
    }
    Some(octets)
}
