// The contents of elements: numbers in two's complement (X.690, 8.3), and names in base 128 (X.690, 8.19).
ghost use Rattle.std.specs.Prelude.{◌≡◌, ◌+◌, ◌-◌, ◌≤◌, ◌<◌, ◌^◌, ◌++◌, length, drop, All};
ghost use Rattle.rm_val.specs.Spellable.{IsSpellable};
ghost use Rattle.rm_ber.specs.Element.{integer_octets, number_octets, group_octets, name_octets};

use crate::sizes::{integer_size, number_size};
use arrayvec::ArrayVec;
use rm_val::Oid;

// A number takes at most five octets, and the first two numbers of a name are joined in one.
const GROUP_OCTETS: usize = 5;

const NAME_OCTETS: usize = 127 * GROUP_OCTETS;

// The content of the element of a signed number.
#[tactic(auto, unfolding(crate::specs::Element::integer_octets))]
pub(crate) fn integer_content(number: i32) -> ArrayVec<u8, 4>
    ensures { result.items ≡ integer_octets number }
{
    last_octets(&i64::from(number).to_be_bytes(), integer_size(number))
}

// The content of the element of an unsigned number.
#[tactic(auto, unfolding(crate::specs::Element::number_octets))]
pub(crate) fn unsigned_content(number: u64) -> ArrayVec<u8, 9>
    ensures { result.items ≡ number_octets number }
{
    last_octets(&u128::from(number).to_be_bytes(), number_size(number))
}

// The content of the element of a name.
pub(crate) fn name_content(name: &Oid) -> ArrayVec<u8, NAME_OCTETS>
    requires { IsSpellable name.now }
    ensures value { result.items ≡ name_octets name.now }
    ensures few { length name.now ≤ 128 }
    ensures fit { All (λ n. n < 2 ^ 32) name.now }
{
    let mut content = ArrayVec::new();
    put_group(&mut content, 40 * name.at(0) + name.at(1));
    for place in 2..name.len() {
        put_group(&mut content, name.at(place));
    }
    content
}

// Appends a number in base 128, for which there is room.
fn put_group<const N: usize>(out: &mut ArrayVec<u8, N>, number: u32)
    requires { length out.old.items + 5 ≤ N }
    ensures value { out.new.items ≡ out.old.items ++ group_octets number }
    ensures few { length (group_octets number) ≤ 5 }
{
    if number < 0x80 {
        out.push(number as u8);
    } else {
        append(out, group(number).as_slice());
    }
}

// A number in base 128, the highest digit first, and the high bit set in each octet but the last.
#[tactic(auto, using(crate::proofs::CanonicalGroups::group_done))]
fn group(number: u32) -> ArrayVec<u8, GROUP_OCTETS>
    ensures value { result.items ≡ group_octets number }
    ensures few { length result.items ≤ 5 }
{
    let mut octets = ArrayVec::new();
    for weight in [1 << 28, 1 << 21, 1 << 14, 1 << 7] {
        if number >= weight {
            octets.push(0x80 | (number / weight % 128) as u8);
        }
    }
    octets.push((number % 128) as u8);
    octets
}

// The last octets, so many.
fn last_octets<const N: usize>(octets: &[u8], count: usize) -> ArrayVec<u8, N>
    requires within { count ≤ length octets.now }
    requires room { count ≤ N }
    ensures { result.items ≡ drop (length octets.now - count) octets.now }
{
    let mut last = ArrayVec::new();
    append(&mut last, &octets[octets.len() - count..]);
    last
}

// Appends octets for which there is room.
fn append<const N: usize>(out: &mut ArrayVec<u8, N>, octets: &[u8])
    requires { length out.old.items + length octets.now ≤ N }
    ensures { out.new.items ≡ out.old.items ++ octets.now }
{
    let _ = out.try_extend_from_slice(octets);
}
