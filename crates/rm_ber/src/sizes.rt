// How many octets elements take (X.690, 8.1.3, 8.3 and 8.19; RFC 1905, section 3).
ghost use Rattle.std.specs.Prelude.{◌≡◌, ◌+◌, ◌^◌, ◌<◌, ◌≤◌, length};
ghost use Rattle.rm_val.specs.Val.{val_of, int, octets};
ghost use Rattle.rm_val.specs.Spellable.{IsSpellable, HasSpelling};
ghost use Rattle.rm_ber.specs.Element.{length_octets, number_size, integer_size, group_octets, name_octets, value_element};
ghost use Rattle.rm_ber.specs.Canonical.{name_value, HasLength};

use rm_val::{Oid, Value};

/// How many octets the canonical element of a value takes, its tag and its length among them (X.690, 8.1). The slice
/// of an Octets or Opaque value has at most 4294967295 octets.
pub fn size(value: &Value<'_>) -> usize
    requires spelling { HasSpelling (val_of value.now) }
    requires short { HasLength (val_of value.now) }
    ensures { result ≡ length (value_element (val_of value.now)) }
{
    element_size(content_size(value))
}

/// How many octets the canonical element of a name takes, its tag and its length among them (X.690, 8.19).
#[tactic(auto, unfolding(crate::specs::Element::element))]
pub fn name_size(name: &Oid) -> usize
    requires { IsSpellable name.now }
    ensures { result ≡ length (value_element (name_value name.now)) }
{
    element_size(name_content_size(name))
}

/// How many octets the canonical element of a signed number takes, its tag and its length among them (X.690, 8.3).
#[tactic(auto, unfolding(crate::specs::Element::element, crate::specs::Element::integer_octets))]
pub fn integer_element_size(number: i32) -> usize
    ensures value { result ≡ length (value_element (int number)) }
    ensures short { result ≤ 6 }
{
    element_size(integer_size(number))
}

/// How many octets the canonical element of an OCTET STRING takes, its tag and its length among them (X.690, 8.7). It has at
/// most 4294967295 octets of content.
#[tactic(auto, unfolding(crate::specs::Element::element))]
pub fn octets_element_size(bytes: &[u8]) -> usize
    requires { length bytes.now ≤ 4294967295 }
    ensures { result ≡ length (value_element (octets bytes.now)) }
{
    element_size(bytes.len())
}

// How many octets an element with so many octets of content takes.
pub(crate) fn element_size(content: usize) -> usize
    requires { content < 2 ^ 63 }
    ensures { result ≡ 1 + length (length_octets content) + content }
{
    1 + length_size(content) + content
}

/// How many octets the length of so many octets of content takes (X.690, 8.1.3).
pub fn length_size(content: usize) -> usize
    ensures value { result ≡ length (length_octets content) }
    ensures most { result ≤ 5 }
{
    match content {
        0..=0x7f => 1,
        0x80..=0xff => 2,
        0x100..=0xffff => 3,
        0x1_0000..=0xff_ffff => 4,
        _ => 5,
    }
}

// How many octets of content the element of a value has.
#[tactic(auto, unfolding(crate::specs::Element::element, crate::specs::Element::integer_octets, crate::specs::Element::number_octets))]
fn content_size(value: &Value<'_>) -> usize
    requires { HasSpelling (val_of value.now) }
    ensures fits { result < 2 ^ 63 }
    ensures value { length (value_element (val_of value.now)) ≡ 1 + length (length_octets result) + result }
{
    match value {
        Value::Int(number) => integer_size(*number),
        Value::Octets(octets) | Value::Opaque(octets) => octets.len(),
        Value::Name(name) => name_content_size(name),
        Value::Ip(octets) => octets.as_slice().len(),
        Value::Counter(number) | Value::Gauge(number) | Value::Ticks(number) => {
            number_size(u64::from(*number))
        }
        Value::Big(number) => number_size(*number),
        Value::Null | Value::NoObject | Value::NoInstance | Value::EndOfView => 0,
    }
}

// How many octets of content the element of a name has.
fn name_content_size(name: &Oid) -> usize
    requires { IsSpellable name.now }
    ensures value { result ≡ length (name_octets name.now) }
    ensures fits { result ≤ 635 }
{
    let mut size = group_size(40 * name.at(0) + name.at(1));
    for place in 2..name.len() {
        size += group_size(name.at(place));
    }
    size
}

// How many octets a number takes in base 128.
fn group_size(number: u32) -> usize
    ensures value { result ≡ length (group_octets number) }
    ensures most { result ≤ 5 }
{
    match number {
        0..=0x7f => 1,
        0x80..=0x3fff => 2,
        0x4000..=0x1f_ffff => 3,
        0x20_0000..=0xfff_ffff => 4,
        _ => 5,
    }
}

// How many octets of two's complement the number takes at least.
pub(crate) fn integer_size(number: i32) -> usize
    ensures value { result ≡ integer_size number }
    ensures least { 1 ≤ result }
    ensures most { result ≤ 4 }
{
    match number {
        -0x80..=0x7f => 1,
        -0x8000..=0x7fff => 2,
        -0x80_0000..=0x7f_ffff => 3,
        _ => 4,
    }
}

// How many octets of two's complement the number takes at least, its sign bit being 0.
pub(crate) fn number_size(number: u64) -> usize
    ensures value { result ≡ number_size number }
    ensures least { 1 ≤ result }
    ensures most { result ≤ 9 }
    ensures narrow { number < 2 ^ 32 → result ≤ 5 }
{
    match number {
        0..=0x7f => 1,
        0x80..=0x7fff => 2,
        0x8000..=0x7f_ffff => 3,
        0x80_0000..=0x7fff_ffff => 4,
        0x8000_0000..=0x7f_ffff_ffff => 5,
        0x80_0000_0000..=0x7fff_ffff_ffff => 6,
        0x8000_0000_0000..=0x7f_ffff_ffff_ffff => 7,
        0x80_0000_0000_0000..=0x7fff_ffff_ffff_ffff => 8,
        _ => 9,
    }
}
