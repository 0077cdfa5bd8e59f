// The outcome of a file of cases.
use crate::case::Case;
use crate::difference::Difference;
use crate::trial::try_case;
use case_text::{Names, Statement, Trouble, first_word, statements};
use std::alloc::{AllocError, Global};

/// How many cases a file has, and how many datagrams they ask.
#[derive(Clone, Copy)]
pub struct Counts {
    pub cases: usize,
    pub datagrams: usize,
}

/// The outcome of a file of cases.
#[derive(Drop)]
pub enum Outcome {
    /// Each of its cases is as its run.
    Good(Counts),
    /// This statement isn't of the form, or the file has no case.
    Unread {
        line: usize,
        trouble: Trouble,
    },
    /// The first case that is other than its run.
    Bad {
        title: String,
        difference: Difference,
    },
}

impl Outcome {
    /// Whether each of the cases is as its run.
    pub fn is_good(&self) -> bool {
        matches!(self, Outcome::Good(_))
    }

    /// The lines that tell it of a file with that name.
    pub fn text(&self, alloc: Global, name: &str) -> Result<String, AllocError> {
        match self {
            Outcome::Good(counts) => {
                let cases = counts.cases;
                let datagrams = counts.datagrams;
                format!(in alloc; "{name}: cases {cases}, datagrams {datagrams}")
            }
            Outcome::Unread { line, trouble } => {
                let text = trouble.text();
                format!(in alloc; "{name}, line {line}: unread: {text}")
            }
            Outcome::Bad { title, difference } => {
                let Difference {
                    call,
                    line,
                    expected,
                    written,
                } = difference;
                let fault = match call {
                    Some(call) => call.text(alloc)?,
                    None => String::new(alloc),
                };
                format!(in alloc;
                    "{name}, line {line}: {title}{fault}\n  expected {expected}\n  written  {written}"
                )
            }
        }
    }
}

/// Judges a file of cases, up to the first that isn't as its run.
pub fn judge(alloc: Global, names: &Names, text: &str) -> Outcome {
    let statements = match statements(alloc, text) {
        Ok(statements) => statements,
        Err(trouble) => return Outcome::Unread { line: 0, trouble },
    };
    let mut counts = Counts {
        cases: 0,
        datagrams: 0,
    };
    let common = common(&statements);
    let mut current = None;
    for statement in &statements {
        match step(alloc, names, common, statement, &mut current, &mut counts) {
            Ok(None) => {}
            Ok(Some(outcome)) => return outcome,
            Err(trouble) => {
                return Outcome::Unread {
                    line: statement.line,
                    trouble,
                };
            }
        }
    }
    match finish(alloc, current, &mut counts) {
        Ok(None) => Outcome::Good(counts),
        Ok(Some(outcome)) => outcome,
        Err(trouble) => {
            let line = statements.last().map_or(0, |statement| statement.line);
            Outcome::Unread { line, trouble }
        }
    }
}

// The statements before the first case, which each case begins with.
fn common(statements: &[Statement]) -> &[Statement] {
    let first = statements
        .iter()
        .position(|statement| statement.begins_case());
    match first {
        Some(first) => statements.get(..first).unwrap_or(statements),
        None => &[],
    }
}

// Takes a statement. An outcome comes where it ends a case that isn't as its run.
fn step(
    alloc: Global,
    names: &Names,
    common: &[Statement],
    statement: &Statement,
    current: &mut Option<Case>,
    counts: &mut Counts,
) -> Result<Option<Outcome>, Trouble> {
    if statement.begins_case() {
        let (_, title) = first_word(statement.text.as_str());
        let mut next = Case::new(alloc, statement.line, title)?;
        for statement in common {
            next.take(names, statement)?;
        }
        return match current.replace(next) {
            None => Ok(None),
            Some(case) => end_case(alloc, &case, counts),
        };
    }
    match current {
        None => Ok(None),
        Some(case) => {
            case.take(names, statement)?;
            Ok(None)
        }
    }
}

// Ends the last case of a file.
fn finish(
    alloc: Global,
    current: Option<Case>,
    counts: &mut Counts,
) -> Result<Option<Outcome>, Trouble> {
    match current {
        None => Err(Trouble::Form("no case")),
        Some(case) => end_case(alloc, &case, counts),
    }
}

// Runs a case, and counts it where it is as its run.
fn end_case(alloc: Global, case: &Case, counts: &mut Counts) -> Result<Option<Outcome>, Trouble> {
    case.end()?;
    case.begins()?;
    if let Some(difference) = try_case(alloc, case)? {
        let title = String::from_str(alloc, case.title.as_str())?;
        return Ok(Some(Outcome::Bad { title, difference }));
    }
    counts.cases = counts.cases.saturating_add(1);
    counts.datagrams = counts.datagrams.saturating_add(case.asked);
    Ok(None)
}
