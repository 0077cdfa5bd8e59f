// Lists of variable bindings as text.
use crate::address::ip;
use crate::ber;
use crate::names::{Names, Syntax};
use crate::pieces::octets;
use crate::text::{first_word, number};
use crate::trouble::Trouble;
use std::alloc::Global;

/// The elements of the bindings of a list, with commas between them. A binding is a name, ` = ` and a value, or a name alone,
/// whose value is NULL. ` times ` and a count behind it repeat it.
pub fn bindings(alloc: Global, names: &Names, text: &str) -> Result<Vec<u8>, Trouble> {
    let mut all = Vec::new(alloc);
    if text.trim().is_empty() {
        return Ok(all);
    }
    for piece in text.split(',') {
        let (text, count) = match piece.rsplit_once(" times ") {
            Some((text, count)) => (text, number(count.trim())?),
            None => (piece, 1),
        };
        let one = binding(alloc, names, text.trim())?;
        for _ in 0..count {
            all.extend_from_slice(&one)?;
        }
    }
    Ok(all)
}

// The element of a binding, or the octets behind `raw` in place of one.
fn binding(alloc: Global, names: &Names, text: &str) -> Result<Vec<u8>, Trouble> {
    if let Some(raw) = text.strip_prefix("raw ") {
        return octets(alloc, raw);
    }
    let mut content = Content {
        alloc,
        names,
        octets: Vec::new(alloc),
    };
    match text.split_once('=') {
        Some((name, value)) => {
            content.push_name(name.trim())?;
            content.push_value(name.trim(), value.trim())?;
        }
        None => {
            content.push_name(text)?;
            content.push_empty(ber::NULL)?;
        }
    }
    let mut element = Vec::new(alloc);
    ber::push_element(ber::SEQUENCE, &content.octets, &mut element)?;
    Ok(element)
}

// The content of a binding that is being written, and the names by which its parts are told.
#[derive(Drop)]
struct Content<'a> {
    alloc: Global,
    names: &'a Names,
    octets: Vec<u8>,
}

impl<'a> Content<'a> {
    // A name is an identifier, or `name` and the octets of its content.
    fn push_name(&mut self, text: &str) -> Result<(), Trouble> {
        match text.strip_prefix("name ") {
            Some(content) => {
                let content = octets(self.alloc, content)?;
                ber::push_element(ber::OBJECT_IDENTIFIER, &content, &mut self.octets)
            }
            None => self.push_syntax(Syntax::ObjectIdentifier, text),
        }
    }

    // A value whose kind is named, or one of the object's own syntax.
    fn push_value(&mut self, name: &str, text: &str) -> Result<(), Trouble> {
        if let Some(tag) = empty_kind(text) {
            return self.push_empty(tag);
        }
        let (kind, rest) = first_word(text);
        if kind == "element" {
            return Ok(self.octets.extend_from_slice(&octets(self.alloc, rest)?)?);
        }
        match syntax_named(kind) {
            Some(syntax) => self.push_syntax(syntax, rest),
            None => self.push_own(name, text),
        }
    }

    // A value of the object's own syntax, or the name of one of its numbers.
    fn push_own(&mut self, name: &str, text: &str) -> Result<(), Trouble> {
        if let Some(number) = self.names.labelled(name, text) {
            return ber::push_number(ber::INTEGER, number, &mut self.octets);
        }
        match self.names.syntax(name) {
            Some(syntax) => self.push_syntax(syntax, text),
            None => Err(Trouble::Form("a value without a kind for a name without a syntax")),
        }
    }

    fn push_syntax(&mut self, syntax: Syntax, text: &str) -> Result<(), Trouble> {
        let all = &mut self.octets;
        match syntax {
            Syntax::Integer => ber::push_number(ber::INTEGER, signed(text)?, all),
            Syntax::Counter => ber::push_number(ber::COUNTER, unsigned(text)?, all),
            Syntax::Gauge => ber::push_number(ber::GAUGE, unsigned(text)?, all),
            Syntax::Ticks => ber::push_number(ber::TICKS, unsigned(text)?, all),
            Syntax::OctetString => {
                ber::push_element(ber::OCTET_STRING, &octets(self.alloc, text)?, all)
            }
            Syntax::ObjectIdentifier => {
                ber::push_identifier(self.alloc, &self.names.identifier(text)?, all)
            }
            Syntax::IpAddress => ber::push_element(ber::IP_ADDRESS, &ip(self.alloc, text)?, all),
        }
    }

    fn push_empty(&mut self, tag: u8) -> Result<(), Trouble> {
        ber::push_element(tag, &[], &mut self.octets)
    }
}

// The tag of a value that has no content.
fn empty_kind(text: &str) -> Option<u8> {
    match text {
        "null" => Some(ber::NULL),
        "noSuchObject" => Some(ber::NO_SUCH_OBJECT),
        "noSuchInstance" => Some(ber::NO_SUCH_INSTANCE),
        "endOfMibView" => Some(ber::END_OF_MIB_VIEW),
        _ => None,
    }
}

// The syntax of a kind of values.
fn syntax_named(kind: &str) -> Option<Syntax> {
    match kind {
        "integer" => Some(Syntax::Integer),
        "octets" => Some(Syntax::OctetString),
        "oid" => Some(Syntax::ObjectIdentifier),
        "address" => Some(Syntax::IpAddress),
        "counter" => Some(Syntax::Counter),
        "gauge" => Some(Syntax::Gauge),
        "ticks" => Some(Syntax::Ticks),
        _ => None,
    }
}

fn signed(text: &str) -> Result<i64, Trouble> {
    text.parse::<i32>().map(i64::from).map_err(|_| Trouble::Form(
        "no number from -2^31 to 2^31 - 1, and no name of one",
    ))
}

fn unsigned(text: &str) -> Result<i64, Trouble> {
    Ok(i64::from(number(text)?))
}
