// The objects that cases call by their names.
use crate::text::{Statement, first_word, number};
use crate::trouble::Trouble;
use std::alloc::Global;
use std::collections::BTreeMap;

/// The syntax of an object (RFC 1902, section 7.1).
#[derive(Clone, Copy, Debug, PartialEq, Eq)]
pub enum Syntax {
    Integer,
    OctetString,
    ObjectIdentifier,
    IpAddress,
    Counter,
    Gauge,
    Ticks,
}

impl Syntax {
    fn read(word: &str) -> Result<Syntax, Trouble> {
        match word {
            "INTEGER" => Ok(Syntax::Integer),
            "OCTET-STRING" => Ok(Syntax::OctetString),
            "OBJECT-IDENTIFIER" => Ok(Syntax::ObjectIdentifier),
            "IpAddress" => Ok(Syntax::IpAddress),
            "Counter32" => Ok(Syntax::Counter),
            "Gauge32" => Ok(Syntax::Gauge),
            "TimeTicks" => Ok(Syntax::Ticks),
            _ => Err(Trouble::Form("no syntax of an object")),
        }
    }
}

/// What a name stands for.
#[derive(Drop)]
struct Object {
    identifier: Vec<u32>,
    /// None where it has no value of its own, as a table.
    syntax: Option<Syntax>,
    /// The names of its numbers, as `valid(1) invalid(4)`.
    labels: String,
}

/// The objects by their names.
#[derive(Drop)]
pub struct Names {
    alloc: Global,
    objects: BTreeMap<String, Object>,
}

impl Names {
    pub fn new(alloc: Global) -> Names {
        Names {
            alloc,
            objects: BTreeMap::new(alloc),
        }
    }

    /// Takes a line of the file of names: a name, its identifier, and for an object with a value its syntax and the names of
    /// its numbers. An identifier is numbers with dots between them, of which the first may be a name from an earlier line.
    pub fn take(&mut self, statement: &Statement) -> Result<(), Trouble> {
        let (name, rest) = first_word(statement.text.as_str());
        let (identifier, rest) = first_word(rest);
        let (syntax, labels) = first_word(rest);
        let object = Object {
            identifier: self.identifier(identifier)?,
            syntax: if syntax.is_empty() {
                None
            } else {
                Some(Syntax::read(syntax)?)
            },
            labels: String::from_str(self.alloc, labels)?,
        };
        let name = String::from_str(self.alloc, name)?;
        match self.objects.insert(name, object)? {
            None => Ok(()),
            Some(_) => Err(Trouble::Form("a name that is there already")),
        }
    }

    /// The numbers of an identifier: numbers with dots between them, of which the first may be a name.
    pub fn identifier(&self, text: &str) -> Result<Vec<u32>, Trouble> {
        let mut numbers = Vec::new(self.alloc);
        let (head, tail) = head_and_tail(text);
        match self.objects.get(head) {
            Some(object) => numbers.extend_from_slice(&object.identifier)?,
            None => numbers.push(known_number(head)?)?,
        }
        if let Some(tail) = tail {
            for word in tail.split('.') {
                numbers.push(number(word)?)?;
            }
        }
        Ok(numbers)
    }

    /// The syntax of the object whose instance a text names.
    pub fn syntax(&self, text: &str) -> Option<Syntax> {
        let (head, _) = head_and_tail(text);
        self.objects.get(head)?.syntax
    }

    /// The number that a word names in the object whose instance a text names.
    pub fn labelled(&self, text: &str, word: &str) -> Option<i64> {
        let (head, _) = head_and_tail(text);
        let object = self.objects.get(head)?;
        for label in object.labels.as_str().split_whitespace() {
            if let Some((name, number)) = label.split_once('(')
                && name == word
            {
                return number.trim_end_matches(')').parse::<i64>().ok();
            }
        }
        None
    }
}

fn head_and_tail(text: &str) -> (&str, Option<&str>) {
    match text.split_once('.') {
        Some((head, tail)) => (head, Some(tail)),
        None => (text, None),
    }
}

fn known_number(head: &str) -> Result<u32, Trouble> {
    head.parse::<u32>().map_err(|_| Trouble::Form("a name that isn't in the file of names"))
}
