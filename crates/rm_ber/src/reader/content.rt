// The values that the contents of elements give (X.690, 8.3 and 8.19; RFC 1905, section 3).
ghost use Rattle.std.specs.Prelude.{◌≡◌, ◌≤◌, ◌^◌, ◌==◌, if◌then◌else◌, [], ◌∷◌, length, option_map};
ghost use Rattle.rm_val.specs.Val.{val_of, ip};
ghost use Rattle.rm_ber.specs.Element.{integer_of};
ghost use Rattle.rm_ber.specs.Grammar.{numbers_of};
ghost use Rattle.rm_ber.specs.Reading.{unsigned_of, unsigned_in, group_at, groups_within, extended, name_in, empty_in, value_in};

use crate::tag::{
    COUNTER32, COUNTER64, END_OF_MIB_VIEW, GAUGE32, INTEGER, IP_ADDRESS, NO_SUCH_INSTANCE,
    NO_SUCH_OBJECT, NULL, OBJECT_IDENTIFIER, OCTET_STRING, OPAQUE, TIME_TICKS,
};
use byteorder::{BigEndian, ByteOrder};
use rm_val::{Oid, Value};

// The number that the content of an INTEGER gives: 1 to 8 octets of two's complement, in the fewest or not.
pub(crate) fn read_integer(content: &[u8]) -> Option<i32>
    ensures { result ≡ integer_of content.now }
{
    if content.is_empty() || content.len() > 8 {
        return None;
    }
    i32::try_from(BigEndian::read_int(content, content.len())).ok()
}

// The number of 1 to `most` octets of two's complement whose sign bit is 0.
fn read_unsigned(content: &[u8], most: usize) -> Option<u128>
    requires { most ≤ 16 }
    ensures { result ≡ unsigned_of most content.now }
{
    let first = *content.first()?;
    if content.len() > most || first >= 0x80 {
        return None;
    }
    Some(BigEndian::read_uint128(content, content.len()))
}

// The content of a Counter32, Gauge32 or TimeTicks.
#[tactic(auto, unfolding(crate::specs::Reading::unsigned_in))]
fn read_u32(content: &[u8]) -> Option<u32>
    ensures { result ≡ unsigned_in 8 (2 ^ 32) content.now }
{
    u32::try_from(read_unsigned(content, 8)?).ok()
}

// The content of a Counter64. The sign bit may take an octet of its own.
#[tactic(auto, unfolding(crate::specs::Reading::unsigned_in))]
fn read_u64(content: &[u8]) -> Option<u64>
    ensures { result ≡ unsigned_in 9 (2 ^ 64) content.now }
{
    u64::try_from(read_unsigned(content, 9)?).ok()
}

// The number of a name that stands first, and the octets after it. None where it begins with 0x80, has no end
// or is above 32 bits.
#[tactic(auto, unfolding(crate::specs::Reading::group_at))]
fn group_at(octets: &[u8]) -> Option<(u32, &[u8])>
    ensures { option_map (λ group. (group.0, group.1.now)) result ≡ group_at octets.now }
{
    if let [0x80, ..] = octets {
        return None;
    }
    let mut number: u32 = 0;
    let mut rest = octets;
    while let [octet, more @ ..] = rest {
        if number >= 1 << 25 {
            return None;
        }
        number = 128 * number + u32::from(octet % 128);
        if *octet < 0x80 {
            return Some((number, more));
        }
        rest = more;
    }
    None
}

// Appends the numbers of the groups to a name. None where there is no room, or where they are no groups.
fn put_groups(name: &mut Oid, groups: &[u8]) -> Option<()>
    requires { length name.old ≤ 128 }
    ensures { option_map (λ done. name.new) result ≡ extended name.old (groups_within (length groups.now) groups.now) }
{
    let mut rest = groups;
    while !rest.is_empty() {
        let (number, more) = group_at(rest)?;
        name.push(number).ok()?;
        rest = more;
    }
    Some(())
}

// The first two numbers of a name, from its first group (X.690, 8.19.4).
fn first_numbers(group: u32) -> [u32; 2]
    ensures { result ≡ numbers_of (group ∷ []) }
{
    match group {
        0..=39 => [0, group],
        40..=79 => [1, group - 40],
        _ => [2, group - 80],
    }
}

// The content of an OBJECT IDENTIFIER.
#[tactic(auto, unfolding(crate::specs::Reading::name_in))]
pub(crate) fn read_name(content: &[u8]) -> Option<Oid>
    ensures { result ≡ name_in content.now }
{
    let (group, rest) = group_at(content)?;
    let [first, second] = first_numbers(group);
    let mut name = Oid::new();
    name.push(first).ok()?;
    name.push(second).ok()?;
    put_groups(&mut name, rest)?;
    Some(name)
}

// The value of a kind that has no content.
#[tactic(auto, unfolding(crate::specs::Reading::empty_in))]
fn read_empty<'a>(tag: u8, content: &[u8]) -> Option<Value<'a>>
    ensures { option_map val_of result ≡ empty_in tag content.now }
{
    if !content.is_empty() {
        return None;
    }
    match tag {
        NULL => Some(Value::Null),
        NO_SUCH_OBJECT => Some(Value::NoObject),
        NO_SUCH_INSTANCE => Some(Value::NoInstance),
        END_OF_MIB_VIEW => Some(Value::EndOfView),
        _ => None,
    }
}

// The content of an IpAddress.
fn read_address<'a>(content: &[u8]) -> Option<Value<'a>>
    ensures { option_map val_of result ≡ (if length content.now == 4 then Some (ip content.now) else None) }
{
    let &[a, b, c, d] = content else {
        return None;
    };
    Some(Value::Ip([a, b, c, d]))
}

// The value of an element with that tag and content.
#[tactic(auto, unfolding(crate::specs::Reading::value_in))]
pub(crate) fn read_value<'a>(tag: u8, content: &'a [u8]) -> Option<Value<'a>>
    ensures { option_map val_of result ≡ value_in tag content.entry.now }
{
    match tag {
        INTEGER => Some(Value::Int(read_integer(content)?)),
        OCTET_STRING => Some(Value::Octets(content)),
        OBJECT_IDENTIFIER => Some(Value::Name(read_name(content)?)),
        IP_ADDRESS => read_address(content),
        COUNTER32 => Some(Value::Counter(read_u32(content)?)),
        GAUGE32 => Some(Value::Gauge(read_u32(content)?)),
        TIME_TICKS => Some(Value::Ticks(read_u32(content)?)),
        OPAQUE => Some(Value::Opaque(content)),
        COUNTER64 => Some(Value::Big(read_u64(content)?)),
        _ => read_empty(tag, content),
    }
}
