// What a run is to come to.
use crate::case::Case;
use crate::difference::Difference;
use crate::outside::{FailingCall, Kind, LET_THROUGH, Outside};
use case_text::Trouble;
use rm_cmd::Status;
use rm_edge::MemLink;
use std::alloc::{AllocError, Global};

/// How a run is to end, and what it is to have written.
#[derive(Clone, Copy)]
pub struct Expected<'a> {
    call: Option<FailingCall>,
    status: Status,
    text: &'a str,
}

impl<'a> Expected<'a> {
    /// What the case says. The text is all that it writes.
    pub fn whole(case: &Case, text: &'a str) -> Expected<'a> {
        Expected {
            call: None,
            status: case.status,
            text,
        }
    }

    /// What a run of the case comes to in which a call fails, where this was written. The text is all that the case writes.
    pub fn failing(call: FailingCall, text: &'a str, written: &str) -> Expected<'a> {
        let text = match call.kind {
            Kind::Put => front(text, call.number.saturating_sub(1), LET_THROUGH),
            Kind::Read | Kind::Link => front(text, whole_lines(written), 0),
        };
        Expected {
            call: Some(call),
            status: call.kind.status(),
            text,
        }
    }

    /// The first difference of a run that ended with this status, and left this outside.
    pub fn difference(
        &self,
        alloc: Global,
        case: &Case,
        status: Status,
        outside: &Outside,
    ) -> Result<Option<Difference>, Trouble> {
        let mut found = self.text_difference(alloc, case, outside.text()?)?;
        if found.is_none() {
            found = self.sent_difference(case, &outside.link)?;
        }
        if found.is_none() {
            found = self.status_difference(alloc, case, status)?;
        }
        if let Some(difference) = &mut found {
            difference.call = self.call;
        }
        Ok(found)
    }

    // The first line that differs, or else the end of the last one.
    fn text_difference(
        &self,
        alloc: Global,
        case: &Case,
        text: &str,
    ) -> Result<Option<Difference>, AllocError> {
        if text == self.text {
            return Ok(None);
        }
        let mut written = text.lines();
        for (place, expected) in self.text.lines().enumerate() {
            let found = written.next().unwrap_or("no line");
            if found != expected {
                let line = case.line_of(place);
                return Ok(Some(Difference::new(alloc, line, expected, found)?));
            }
        }
        let (expected, found) = match written.next() {
            Some(found) => ("no further line", found),
            None => ("LF after each line", "another end of a line"),
        };
        Ok(Some(Difference::new(alloc, case.line, expected, found)?))
    }

    // The first datagram that was sent otherwise. Those of the last line may be unsent where a call of the link fails.
    fn sent_difference(&self, case: &Case, link: &MemLink) -> Result<Option<Difference>, Trouble> {
        let lines = whole_lines(self.text);
        let found = case.traffic.difference(case.line, lines, link)?;
        match self.call {
            Some(call) if found.is_some() && call.kind == Kind::Link => {
                let before = lines.saturating_sub(1);
                case.traffic.difference(case.line, before, link)
            }
            _ => Ok(found),
        }
    }

    fn status_difference(
        &self,
        alloc: Global,
        case: &Case,
        status: Status,
    ) -> Result<Option<Difference>, AllocError> {
        if status == self.status {
            return Ok(None);
        }
        let expected = self.status.to_string(alloc)?;
        let written = status.to_string(alloc)?;
        Ok(Some(Difference::new(alloc, case.line, expected.as_str(), written.as_str())?))
    }
}

// How many lines of a text end.
fn whole_lines(text: &str) -> usize {
    let octets = text.as_bytes();
    octets.iter().filter(|octet| **octet == b'\n').count()
}

// So many lines of a text, and so many octets of the line behind them.
fn front(text: &str, lines: usize, octets: usize) -> &str {
    let mut end: usize = 0;
    for (place, line) in text.split_inclusive('\n').enumerate() {
        if place < lines {
            end = end.saturating_add(line.len());
        } else {
            end = end.saturating_add(line.len().min(octets));
            break;
        }
    }
    text.get(..end).unwrap_or(text)
}
