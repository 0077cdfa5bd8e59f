// Reading elements one after the other.
mod content;
mod parts;

ghost use Rattle.std.specs.Prelude.{◌≡◌, ◌≤◌, ◌↔◌, [], ℕ, ℤ, List, length, slice_get, IsOk, IsOkAnd, IfOk, IfErr, OnErr};
ghost use Rattle.rm_val.specs.Val.{Val, val_of, int, octets, name};
ghost use Rattle.rm_ber.specs.Grammar.{StandsFirst, ValueFirst, end_of};

use crate::reader::content::{read_integer, read_name, read_value};
use crate::reader::parts::Element;
use crate::tag::{INTEGER, OBJECT_IDENTIFIER, OCTET_STRING};
use rm_val::{Oid, Value};
use std::marker::Model;

/// The next octets aren't the element that was asked for, or octets are left where none may be.
#[derive(Clone, Copy, Debug, PartialEq, Eq)]
pub struct Bad {
    /// The offset of the tag of the element that isn't accepted, or of the first octet left. It counts the octets of
    /// the whole slice from 0, also where the reader is one of a content.
    pub at: usize,
}

/// Reads the elements of a slice in the order of their octets (X.690, 8.1). Each is a tag of one octet, a length in
/// the definite form with at most 4 further octets, and so many octets of content. A length and an integer may take
/// more octets than are needed. Offsets count the octets of the whole slice from 0. No call takes memory, and after an
/// error the reader is as before.
#[derive(Drop)]
pub struct Reader<'a> {
    rest: &'a [u8],
    at: usize,
}

impl<'a> Model for Reader<'a> {
    ghost use Rattle.std.specs.Prelude.{◌+◌, ◌<◌, ◌^◌, length};
    ghost use Rattle.rm_ber.specs.Grammar.{Left};

    ghost Value = { Left };

    ghost view = { λ r. record { at = r.at; left = r.rest.now } };

    ghost invariant = { λ r. r.at + length r.rest.now < 2 ^ 64 };
}

impl<'a> Reader<'a> {
    /// A reader of all these octets, which begins at offset 0.
    pub fn new(bytes: &'a [u8]) -> Reader<'a>
        ensures begins { result.at ≡ 0 }
        ensures whole { result.left ≡ bytes.entry.now }
    {
        Reader { rest: bytes, at: 0 }
    }

    /// Passes an element with this tag, whatever its content is, and gives a reader of that content (X.690, 8.9). Bad,
    /// with the offset of the next octet, where no such element stands first.
    pub fn enter(&mut self, tag: u8) -> Result<Reader<'a>, Bad>
        ensures found { IfOk result (λ inner. StandsFirst tag inner.left self.new.left self.old.left) }
        ensures ends { IfOk result (λ inner. end_of inner ≡ self.new.at) }
        ensures end { end_of self.new ≡ end_of self.old }

        // Whatever stands first with that tag is passed.
        ensures exact { (content rest : List ℕ) → StandsFirst tag content rest self.old.left
            → IsOkAnd result (λ inner. inner.left ≡ content) × (self.new.left ≡ rest) }

        ensures place { IfErr result (λ bad. bad.at ≡ self.old.at) }
        ensures stays { OnErr result (self.new ≡ self.old) }
    {
        let element = self.element(tag)?;
        self.pass(element.rest);
        Ok(Reader {
            rest: element.content,
            at: self.at - element.content.len(),
        })
    }

    /// Reads an INTEGER, tag 0x02: 1 to 8 octets of two's complement, the highest first, of a number of 32 bits (X.690,
    /// 8.3). Bad, with the offset of the next octet, where none stands first.
    pub fn int(&mut self) -> Result<i32, Bad>
        ensures found { IfOk result (λ number. ValueFirst (int number) self.new.left self.old.left) }
        ensures end { end_of self.new ≡ end_of self.old }

        // Whatever INTEGER stands first is read.
        ensures exact { (number : ℤ) (rest : List ℕ) → ValueFirst (int number) rest self.old.left
            → (result ≡ Ok number) × (self.new.left ≡ rest) }

        ensures place { IfErr result (λ bad. bad.at ≡ self.old.at) }
        ensures stays { OnErr result (self.new ≡ self.old) }
    {
        let element = self.element(INTEGER)?;
        let Some(number) = read_integer(element.content) else {
            return Err(self.bad());
        };
        self.pass(element.rest);
        Ok(number)
    }

    /// Reads an OCTET STRING, tag 0x04, and lends its content (X.690, 8.7). Bad, with the offset of the next octet, where
    /// none stands first.
    pub fn octets(&mut self) -> Result<&'a [u8], Bad>
        ensures found { IfOk result (λ bytes. ValueFirst (octets bytes.now) self.new.left self.old.left) }
        ensures end { end_of self.new ≡ end_of self.old }

        // Whatever OCTET STRING stands first is read.
        ensures exact { (content rest : List ℕ) → ValueFirst (octets content) rest self.old.left
            → IsOkAnd result (λ bytes. bytes.now ≡ content) × (self.new.left ≡ rest) }

        ensures place { IfErr result (λ bad. bad.at ≡ self.old.at) }
        ensures stays { OnErr result (self.new ≡ self.old) }
    {
        let element = self.element(OCTET_STRING)?;
        self.pass(element.rest);
        Ok(element.content)
    }

    /// Reads an OBJECT IDENTIFIER, tag 0x06, of at most 128 numbers in base 128 (X.690, 8.19). No group of octets begins
    /// with 0x80, and none is above 32 bits. Bad, with the offset of the next octet, where none stands first.
    pub fn name(&mut self) -> Result<Oid, Bad>
        ensures found { IfOk result (λ numbers. ValueFirst (name numbers) self.new.left self.old.left) }
        ensures end { end_of self.new ≡ end_of self.old }

        // Whatever OBJECT IDENTIFIER stands first is read.
        ensures exact { (numbers rest : List ℕ) → ValueFirst (name numbers) rest self.old.left
            → (result ≡ Ok numbers) × (self.new.left ≡ rest) }

        ensures place { IfErr result (λ bad. bad.at ≡ self.old.at) }
        ensures stays { OnErr result (self.new ≡ self.old) }
    {
        let element = self.element(OBJECT_IDENTIFIER)?;
        let Some(numbers) = read_name(element.content) else {
            return Err(self.bad());
        };
        self.pass(element.rest);
        Ok(numbers)
    }

    /// Reads a value of any kind (RFC 1905, section 3): INTEGER 0x02, OCTET STRING 0x04, NULL 0x05, OBJECT IDENTIFIER
    /// 0x06, IpAddress 0x40, Counter32 0x41, Gauge32 0x42, TimeTicks 0x43, Opaque 0x44, Counter64 0x46, noSuchObject
    /// 0x80, noSuchInstance 0x81 or endOfMibView 0x82. An IpAddress has 4 octets of content, a Counter32, Gauge32 or
    /// TimeTicks 1 to 8 and a Counter64 1 to 9 with a sign bit of 0, and NULL and the last three have none. Bad, with
    /// the offset of the next octet, where no value stands first.
    pub fn value(&mut self) -> Result<Value<'a>, Bad>
        ensures found { IfOk result (λ value. ValueFirst (val_of value) self.new.left self.old.left) }
        ensures end { end_of self.new ≡ end_of self.old }

        // Whatever value stands first is read.
        ensures exact { (v : Val) (rest : List ℕ) → ValueFirst v rest self.old.left
            → IsOkAnd result (λ value. val_of value ≡ v) × (self.new.left ≡ rest) }

        ensures place { IfErr result (λ bad. bad.at ≡ self.old.at) }
        ensures stays { OnErr result (self.new ≡ self.old) }
    {
        let element = self.next_element()?;
        let Some(value) = read_value(element.tag, element.content) else {
            return Err(self.bad());
        };
        self.pass(element.rest);
        Ok(value)
    }

    /// The next octet, a tag where an element stands first. None where no octet is left.
    pub fn peek(&self) -> Option<u8>
        ensures { result ≡ slice_get self.now.left 0 }
    {
        self.rest.first().copied()
    }

    /// Nothing, where no octet is left. Bad, with the offset of the first octet left, where one is.
    pub fn finish(&self) -> Result<(), Bad>
        ensures done { IsOk result ↔ (self.now.left ≡ []) }
        ensures place { IfErr result (λ bad. bad.at ≡ self.now.at) }
    {
        if self.rest.is_empty() {
            Ok(())
        } else {
            Err(self.bad())
        }
    }

    /// The offset of the next octet, or that of the end where none is left.
    pub fn offset(&self) -> usize
        ensures { result ≡ self.now.at }
    {
        self.at
    }

    // The next octet is where a rule is broken.
    fn bad(&self) -> Bad
        ensures { result.at ≡ self.now.at }
    {
        Bad { at: self.at }
    }

    // The element that stands first.
    fn next_element(&self) -> Result<Element<'a>, Bad>
        ensures found { IfOk result (λ e. StandsFirst e.tag e.content.now e.rest.now self.now.left) }
        ensures exact { (tag : ℕ) (content rest : List ℕ) → StandsFirst tag content rest self.now.left
            → IsOkAnd result (λ e. (e.tag ≡ tag) × (e.content.now ≡ content) × (e.rest.now ≡ rest)) }
        ensures place { IfErr result (λ bad. bad.at ≡ self.now.at) }
    {
        match Element::first(self.rest) {
            Some(element) => Ok(element),
            None => Err(self.bad()),
        }
    }

    // The element that stands first, if it has that tag.
    fn element(&self, tag: u8) -> Result<Element<'a>, Bad>
        ensures found { IfOk result (λ e. StandsFirst tag e.content.now e.rest.now self.now.left) }
        ensures exact { (content rest : List ℕ) → StandsFirst tag content rest self.now.left
            → IsOkAnd result (λ e. (e.content.now ≡ content) × (e.rest.now ≡ rest)) }
        ensures place { IfErr result (λ bad. bad.at ≡ self.now.at) }
    {
        let element = self.next_element()?;
        if element.tag == tag {
            Ok(element)
        } else {
            Err(self.bad())
        }
    }

    // Moves on to the octets from which the rest begins.
    fn pass(&mut self, rest: &'a [u8])
        requires { length rest.now ≤ length self.old.left }
        ensures rest { self.new.left ≡ rest.entry.now }
        ensures end { end_of self.new ≡ end_of self.old }
    {
        self.at += self.rest.len() - rest.len();
        self.rest = rest;
    }
}
