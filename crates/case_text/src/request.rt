// Datagrams as text, and what is said of them.
use crate::ber;
use crate::binding::bindings;
use crate::names::Names;
use crate::pieces::{octets, word_octets};
use crate::text::{first_word, number};
use crate::trouble::Trouble;
use std::alloc::Global;

/// The tag of a Response (RFC 1905, section 3).
const RESPONSE: u8 = 0xa2;

/// What the reply to a request repeats of it.
#[derive(Drop)]
struct Repeated {
    community: Vec<u8>,
    id: i64,
    bindings: Vec<u8>,
}

/// A datagram.
#[derive(Drop)]
pub struct Datagram {
    pub octets: Vec<u8>,
    /// None where the datagram was given as octets.
    repeated: Option<Repeated>,
}

// The three integers of a PDU.
#[derive(Drop)]
struct Integers {
    id: i64,
    second: i64,
    third: i64,
    // The elements that stand in place of them.
    elements: Option<Vec<u8>>,
}

impl Integers {
    // Reads those that a text begins with, a word and a number each. The result is what comes after them.
    fn take<'a>(&mut self, alloc: Global, text: &'a str) -> Result<&'a str, Trouble> {
        let mut rest = text;
        for _ in 0..4 {
            let (word, after) = first_word(rest);
            let (value, after) = first_word(after);
            match word {
                "id" => self.id = signed(value)?,
                "non-repeaters" => self.second = signed(value)?,
                "max-repetitions" => self.third = signed(value)?,
                "integers" => self.elements = Some(octets(alloc, value)?),
                _ => break,
            }
            rest = after;
        }
        Ok(rest)
    }

    fn octets(self, alloc: Global) -> Result<Vec<u8>, Trouble> {
        if let Some(elements) = self.elements {
            return Ok(elements);
        }
        let mut all = Vec::new(alloc);
        for number in [self.id, self.second, self.third] {
            ber::push_number(ber::INTEGER, number, &mut all)?;
        }
        Ok(all)
    }
}

fn signed(word: &str) -> Result<i64, Trouble> {
    word.parse::<i32>()
        .map(i64::from)
        .map_err(|_| Trouble::Form("no number from -2^31 to 2^31 - 1"))
}

/// The tag of the PDU with that name (RFC 1905, section 3), in small letters.
pub fn tag_of(kind: &str) -> Result<u8, Trouble> {
    match kind {
        "get" => Ok(0xa0),
        "get-next" => Ok(0xa1),
        "response" => Ok(RESPONSE),
        "set" => Ok(0xa3),
        "get-bulk" => Ok(0xa5),
        "inform" => Ok(0xa6),
        "trap" => Ok(0xa7),
        "report" => Ok(0xa8),
        _ => Err(Trouble::Form("no kind of a datagram")),
    }
}

// A message of SNMPv2c.
fn message(
    alloc: Global,
    community: &[u8],
    tag: u8,
    integers: &[u8],
    bindings: &[u8],
) -> Result<Vec<u8>, Trouble> {
    let mut content = Vec::from_slice(alloc, integers)?;
    ber::push_element(ber::SEQUENCE, bindings, &mut content)?;
    let mut whole = Vec::new(alloc);
    ber::push_number(ber::INTEGER, 1, &mut whole)?;
    ber::push_element(ber::OCTET_STRING, community, &mut whole)?;
    ber::push_element(tag, &content, &mut whole)?;
    let mut message = Vec::new(alloc);
    ber::push_element(ber::SEQUENCE, &whole, &mut message)?;
    Ok(message)
}

impl Datagram {
    /// A datagram of these octets.
    pub fn of_octets(alloc: Global, text: &str) -> Result<Datagram, Trouble> {
        Ok(Datagram {
            octets: octets(alloc, text)?,
            repeated: None,
        })
    }

    /// Reads a datagram of that kind: its community, its integers and its bindings, and what is changed of its octets.
    pub fn read(alloc: Global, names: &Names, kind: &str, text: &str) -> Result<Datagram, Trouble> {
        let (text, change) = match text.split_once(" with ") {
            Some((text, change)) => (text, change),
            None => (text, ""),
        };
        let (community, rest) = first_word(text);
        let community = word_octets(alloc, community)?;
        let mut integers = Integers {
            id: 1,
            second: 0,
            third: 0,
            elements: None,
        };
        let rest = integers.take(alloc, rest)?;
        let id = integers.id;
        let integers = integers.octets(alloc)?;
        let bindings = bindings(alloc, names, rest)?;
        let tag = tag_of(kind)?;
        let mut octets = message(alloc, &community, tag, &integers, &bindings)?;
        change_octets(alloc, change, &mut octets)?;
        let repeated = Some(Repeated {
            community,
            id,
            bindings,
        });
        Ok(Datagram { octets, repeated })
    }

    /// What is to be said of it.
    pub fn answer(&self, alloc: Global, names: &Names, text: &str) -> Result<String, Trouble> {
        let (word, rest) = first_word(text);
        if word == "drop" {
            return Ok(String::from_str(alloc, text)?);
        }
        let reply = match (word, &self.repeated) {
            ("octets", _) => octets(alloc, rest)?,
            ("response", _) => Datagram::read(alloc, names, word, rest)?.octets,
            (_, Some(repeated)) => repeated.reply(alloc, names, text)?,
            (_, None) => return Err(Trouble::Form("no whole reply to octets")),
        };
        let digits = hex::encode(alloc, &reply)?;
        Ok(format!(in alloc; "reply {digits}")?)
    }
}

impl Repeated {
    // The octets of the reply that a text tells.
    fn reply(&self, alloc: Global, names: &Names, text: &str) -> Result<Vec<u8>, Trouble> {
        let mut integers = Integers {
            id: self.id,
            second: 0,
            third: 0,
            elements: None,
        };
        let rest = integers.take(alloc, text)?;
        let (word, index) = first_word(rest);
        let told = match rest {
            "ok" => Vec::from_slice(alloc, &self.bindings)?,
            "empty" => Vec::new(alloc),
            "tooBig" => {
                integers.second = 1;
                Vec::new(alloc)
            }
            _ => match error_status(word) {
                Some(status) => {
                    integers.second = status;
                    integers.third = i64::from(number(index)?);
                    Vec::from_slice(alloc, &self.bindings)?
                }
                None => bindings(alloc, names, rest)?,
            },
        };
        let integers = integers.octets(alloc)?;
        message(alloc, &self.community, RESPONSE, &integers, &told)
    }
}

// Changes a datagram: `octet PLACE DIGITS` puts another octet at a place, counted from 0, and `front COUNT` leaves so many.
fn change_octets(alloc: Global, change: &str, all: &mut Vec<u8>) -> Result<(), Trouble> {
    if change.is_empty() {
        return Ok(());
    }
    let (word, rest) = first_word(change);
    let (place, value) = first_word(rest);
    let place = number(place)? as usize;
    if place >= all.len() {
        return Err(Trouble::Form("a place behind the datagram"));
    }
    match word {
        "octet" => put_octet(alloc, place, value, all),
        "front" if value.is_empty() => {
            all.truncate(place);
            Ok(())
        }
        _ => Err(Trouble::Form("no change of a datagram")),
    }
}

fn put_octet(alloc: Global, place: usize, value: &str, all: &mut Vec<u8>) -> Result<(), Trouble> {
    let value = octets(alloc, value)?;
    match (value.as_slice(), all.get_mut(place)) {
        ([value], Some(octet)) => {
            *octet = *value;
            Ok(())
        }
        _ => Err(Trouble::Form("more or less than one octet")),
    }
}

// The number of an error-status (RFC 1905, section 3).
fn error_status(word: &str) -> Option<i64> {
    match word {
        "genErr" => Some(5),
        "noAccess" => Some(6),
        "wrongType" => Some(7),
        "wrongLength" => Some(8),
        "wrongEncoding" => Some(9),
        "wrongValue" => Some(10),
        "noCreation" => Some(11),
        "inconsistentValue" => Some(12),
        "resourceUnavailable" => Some(13),
        "commitFailed" => Some(14),
        "undoFailed" => Some(15),
        "authorizationError" => Some(16),
        "notWritable" => Some(17),
        "inconsistentName" => Some(18),
        _ => None,
    }
}
