// The octets of messages by the Basic Encoding Rules (ISO 8825), each length and each number in the fewest octets.
// This is written from the rules, apart from the probe, so that what cases expect doesn't come from it.
use crate::trouble::Trouble;
use std::alloc::Global;

/// The tags of what messages are made of (RFC 1905, section 3).
pub const INTEGER: u8 = 0x02;

pub const OCTET_STRING: u8 = 0x04;

pub const NULL: u8 = 0x05;

pub const OBJECT_IDENTIFIER: u8 = 0x06;

pub const SEQUENCE: u8 = 0x30;

pub const IP_ADDRESS: u8 = 0x40;

pub const COUNTER: u8 = 0x41;

pub const GAUGE: u8 = 0x42;

pub const TICKS: u8 = 0x43;

pub const NO_SUCH_OBJECT: u8 = 0x80;

pub const NO_SUCH_INSTANCE: u8 = 0x81;

pub const END_OF_MIB_VIEW: u8 = 0x82;

/// Adds an element of this tag and this content.
pub fn push_element(tag: u8, content: &[u8], octets: &mut Vec<u8>) -> Result<(), Trouble> {
    octets.push(tag)?;
    push_length(content.len(), octets)?;
    octets.extend_from_slice(content)?;
    Ok(())
}

// One octet up to 127, and else their number in an octet with the highest bit, and then those of the length.
fn push_length(length: usize, octets: &mut Vec<u8>) -> Result<(), Trouble> {
    let length = u16::try_from(length).map_err(|_| Trouble::Form("more than 65535 octets"))?;
    let [high, low] = length.to_be_bytes();
    if length >= 0x100 {
        octets.extend_from_slice(&[0x82, high])?;
    } else if length >= 0x80 {
        octets.push(0x81)?;
    }
    octets.push(low)?;
    Ok(())
}

/// Adds an element of this tag whose content is a number, the highest octet first. The highest bit is its sign.
pub fn push_number(tag: u8, number: i64, octets: &mut Vec<u8>) -> Result<(), Trouble> {
    let all = number.to_be_bytes();
    let mut content = all.as_slice();
    for _ in 0..7 {
        content = without_spare(content);
    }
    push_element(tag, content, octets)
}

// The octets of a number without the first one where that says no more than the sign of the second one does.
fn without_spare(content: &[u8]) -> &[u8] {
    match content {
        [0x00, second, ..] if *second < 0x80 => &content[1..],
        [0xff, second, ..] if *second >= 0x80 => &content[1..],
        _ => content,
    }
}

/// Adds the element of an object identifier. Its first two numbers make one.
pub fn push_identifier(
    alloc: Global,
    identifier: &[u32],
    octets: &mut Vec<u8>,
) -> Result<(), Trouble> {
    let [first, second, rest @ ..] = identifier else {
        return Err(Trouble::Form("an identifier of less than two numbers"));
    };
    let mut content = Vec::new(alloc);
    let joined = u64::from(*first).wrapping_mul(40);
    push_base_128(joined.wrapping_add(u64::from(*second)), &mut content)?;
    for number in rest {
        push_base_128(u64::from(*number), &mut content)?;
    }
    push_element(OBJECT_IDENTIFIER, &content, octets)
}

// Seven bits an octet, the highest first, with the highest bit in each octet but the last.
fn push_base_128(number: u64, octets: &mut Vec<u8>) -> Result<(), Trouble> {
    let mut has_begun = false;
    for later in 0..4u32 {
        let bits = ((number >> (28 - 7 * later)) & 0x7f) as u8;
        if has_begun || bits != 0 {
            has_begun = true;
            octets.push(0x80 | bits)?;
        }
    }
    octets.push((number & 0x7f) as u8)?;
    Ok(())
}
