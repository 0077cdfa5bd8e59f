//! Judges files of cases: what a run of the probe is given, and what it is to write. It reads the file `names` and each file
//! `*.cases` of the folder that it runs in, and prints a line for each of them, or what is the first thing wrong with it.
//! README.md says the form.
#![tactic(auto)]

mod case;
mod difference;
mod expected;
mod given;
mod outcome;
mod outside;
mod status;
mod traffic;
mod trial;

use crate::outcome::{Outcome, judge};
use case_text::{Names, statements};
use std::process::ExitCode;
use std::rt::Files;
use std::{fs, io};

/// The file of names.
const NAMES: &str = "names";

// The names of the files of cases, in the order of their letters.
fn files_of_cases(rt: &HostRuntime) -> io::Result<Vec<String>> {
    let mut files = Vec::new(rt.alloc());
    for entry in fs::read_dir(rt, ".")? {
        let entry = entry?;
        let name = entry.file_name();
        if name.ends_with(".cases") {
            files.push(String::from_str(rt.alloc(), name)?)?;
        }
    }
    files.sort()?;
    Ok(files)
}

// Reads the file of names. The outcome tells what is wrong with it.
fn read_names(rt: &HostRuntime) -> io::Result<Result<Names, Outcome>> {
    let text = fs::read_to_string(rt, NAMES)?;
    let mut names = Names::new(rt.alloc());
    let statements = match statements(rt.alloc(), text.as_str()) {
        Ok(statements) => statements,
        Err(trouble) => return Ok(Err(Outcome::Unread { line: 0, trouble })),
    };
    for statement in &statements {
        if let Err(trouble) = names.take(statement) {
            let line = statement.line;
            return Ok(Err(Outcome::Unread { line, trouble }));
        }
    }
    Ok(Ok(names))
}

// Judges each file, and prints the outcomes. The result is whether all are good.
fn judge_all(rt: &HostRuntime) -> io::Result<bool> {
    let names = match read_names(rt)? {
        Ok(names) => names,
        Err(outcome) => {
            rt.println(outcome.text(rt.alloc(), NAMES)?)?;
            return Ok(false);
        }
    };
    let mut is_good = true;
    for name in &files_of_cases(rt)? {
        let text = fs::read_to_string(rt, name.as_str())?;
        let outcome = judge(rt.alloc(), &names, text.as_str());
        rt.println(outcome.text(rt.alloc(), name.as_str())?)?;
        is_good = is_good && outcome.is_good();
    }
    Ok(is_good)
}

fn main(rt: HostRuntime) -> ExitCode {
    match judge_all(&rt) {
        Ok(true) => ExitCode::from(0),
        Ok(false) => ExitCode::from(1),
        Err(error) => {
            let _ = eprintln!(rt; "cases: {error}");
            ExitCode::from(2)
        }
    }
}
