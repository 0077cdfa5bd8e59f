// Words, numbers and statements of a text.
use crate::trouble::Trouble;
use std::alloc::Global;

/// The first word of a text, and what comes after it.
pub fn first_word(text: &str) -> (&str, &str) {
    let text = text.trim();
    match text.split_once(' ') {
        Some((word, rest)) => (word, rest.trim_start()),
        None => (text, ""),
    }
}

/// A number of 32 bits, in decimal digits.
pub fn number(word: &str) -> Result<u32, Trouble> {
    word.parse::<u32>()
        .map_err(|_| Trouble::Form("no number below 2^32"))
}

/// The number that a text begins with, and what comes after it.
pub fn first_number(text: &str) -> Result<(u32, &str), Trouble> {
    let (word, rest) = first_word(text);
    Ok((number(word)?, rest))
}

/// What stands at one place of a file. It begins in that line, counted from 1.
#[derive(Drop)]
pub struct Statement {
    pub line: usize,
    pub text: String,
}

impl Statement {
    /// Whether a case begins with it.
    pub fn begins_case(&self) -> bool {
        let (word, _) = first_word(self.text.as_str());
        word == "case"
    }
}

/// The statements of a file. Empty lines and lines that begin with `#` are left out. A line that ends with a comma goes on
/// in the next one. The answer to a request is a statement of its own, whether it stands in the same line or not.
pub fn statements(alloc: Global, text: &str) -> Result<Vec<Statement>, Trouble> {
    let mut all = Vec::new(alloc);
    let mut begun = String::new(alloc);
    let mut first = 0;
    for (place, line) in text.lines().enumerate() {
        let line = line.trim();
        if line.is_empty() || line.starts_with('#') {
            continue;
        }
        if begun.is_empty() {
            first = place.saturating_add(1);
        } else {
            begun.push_str(" ")?;
        }
        begun.push_str(line)?;
        if !line.ends_with(',') {
            push_statements(alloc, first, begun.as_str(), &mut all)?;
            begun = String::new(alloc);
        }
    }
    if !begun.is_empty() {
        push_statements(alloc, first, begun.as_str(), &mut all)?;
    }
    Ok(all)
}

// Adds the statement of a line, and that of the answer behind it.
fn push_statements(
    alloc: Global,
    line: usize,
    text: &str,
    all: &mut Vec<Statement>,
) -> Result<(), Trouble> {
    let answer = match text.split_once(" -> ") {
        None => {
            let text = String::from_str(alloc, text)?;
            all.push(Statement { line, text })?;
            return Ok(());
        }
        Some((request, answer)) => {
            let text = String::from_str(alloc, request)?;
            all.push(Statement { line, text })?;
            answer
        }
    };
    let text = format!(in alloc; "-> {answer}")?;
    all.push(Statement { line, text })?;
    Ok(())
}
