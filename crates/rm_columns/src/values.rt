// What a column takes, and what it is then set to, by the kind of its values.
ghost use Rattle.std.specs.Prelude.{◌≡◌, ◌≤◌, ◌%◌, ◌^◌, length, [], ◌∷◌, Some};
ghost use Rattle.rm_val.specs.Val.{val_of};
ghost use Rattle.rm_model.specs.ControlTable.{number, text, data_source};
ghost use Rattle.rm_model.specs.Judgement.{value_fault};
ghost use Rattle.rm_columns.specs.Values.{interface_in, octets_in, natural_in, natural_of, number_of, name_of};

use crate::interface::source;
use arrayvec::ArrayVec;
use rm_val::{ErrorStatus, Oid, Value};

/// The most octets that a Set may give an OwnerString (RFC 1757, section 5).
pub const MOST_OWNER: usize = 127;

/// What is wrong with a value for a column that takes the numbers from the least one to the greatest one: wrongType, or
/// wrongValue outside the range.
pub fn number_fault(value: &Value<'_>, least: i32, greatest: i32) -> Option<ErrorStatus>
    ensures { result ≡ value_fault (Some (number (record { least = least; greatest = greatest } ∷ []))) (val_of value.now) }
{
    let Value::Int(number) = value else {
        return Some(ErrorStatus::WrongType);
    };
    if least <= *number && *number <= greatest {
        None
    } else {
        Some(ErrorStatus::WrongValue)
    }
}

/// What is wrong with a value for a column that takes texts of at most so many octets: wrongType, or wrongLength.
pub fn text_fault(value: &Value<'_>, longest: usize) -> Option<ErrorStatus>
    ensures { result ≡ value_fault (Some (text longest)) (val_of value.now) }
{
    let Value::Octets(octets) = value else {
        return Some(ErrorStatus::WrongType);
    };
    if octets.len() <= longest {
        None
    } else {
        Some(ErrorStatus::WrongLength)
    }
}

/// What is wrong with a value for a data source: wrongType, or wrongValue where it isn't the name of one of the probe's
/// interfaces.
pub fn source_fault(value: &Value<'_>) -> Option<ErrorStatus>
    ensures { result ≡ value_fault (Some data_source) (val_of value.now) }
{
    let Value::Name(_) = value else {
        return Some(ErrorStatus::WrongType);
    };
    match source(value) {
        Some(_) => None,
        None => Some(ErrorStatus::WrongValue),
    }
}

/// The number of the interface that a data source names, 0 where it names none of the probe's.
pub fn interface_in(value: &Value<'_>) -> u32
    ensures { result ≡ interface_in (val_of value.now) }
{
    match source(value) {
        Some(number) => number,
        None => 0,
    }
}

/// A number, 0 where it is negative.
pub fn natural(number: i32) -> u32
    ensures value { result ≡ natural_of number }
    ensures most { result ≤ 2147483647 }
{
    if number >= 0 { number as u32 } else { 0 }
}

/// The number that a value is, 0 where it is none or is negative.
pub fn natural_in(value: &Value<'_>) -> u32
    ensures { result ≡ natural_in (val_of value.now) }
{
    match value {
        Value::Int(number) => natural(*number),
        _ => 0,
    }
}

/// Puts the octets of a text in place of those that there are. There is room for them.
pub fn put_text<const N: usize>(text: &mut ArrayVec<u8, N>, value: &Value<'_>)
    requires { length (octets_in (val_of value.now)) ≤ N }
    ensures { text.new.items ≡ octets_in (val_of value.now) }
{
    text.clear();
    if let Value::Octets(octets) = value {
        text.try_extend_from_slice(octets).unwrap();
    }
}

/// The number that a value is, 0 where it is none.
pub fn number_in(value: &Value<'_>) -> i32
    ensures { result ≡ number_of (val_of value.now) }
{
    match value {
        Value::Int(number) => *number,
        _ => 0,
    }
}

/// The number that a value is, 0 where it is none or is negative. It has 16 bits.
pub fn short_in(value: &Value<'_>) -> u16
    requires { natural_in (val_of value.now) ≤ 65535 }
    ensures { result ≡ natural_in (val_of value.now) }
{
    natural_in(value) as u16
}

/// The name that a value is, the empty one where it is none.
pub fn name_in(value: &Value<'_>) -> Oid
    ensures { result ≡ name_of (val_of value.now) }
{
    match value {
        Value::Name(name) => name.copied(),
        _ => Oid::new(),
    }
}

/// A text once more.
pub fn same_text<const N: usize>(text: &ArrayVec<u8, N>) -> ArrayVec<u8, N>
    ensures { result.items ≡ text.now.items }
{
    let mut same = ArrayVec::new();
    same.try_extend_from_slice(text.as_slice()).unwrap();
    same
}

/// A counter as a Counter32 shows it.
pub fn counter_32(counter: u64) -> u32
    ensures { result ≡ counter % 2 ^ 32 }
{
    (counter % (1 << 32)) as u32
}
