// The outside of a run of a case, in memory.
use crate::case::Case;
use case_text::Trouble;
use rm_cmd::{Status, run};
use rm_edge::{Link, MemLink, MemShelf, MemSink, Shelf, Sink, Words};
use rm_probe::replay;
use std::alloc::{AllocError, Global};

/// The octets of room in the output beyond those that are expected.
const SPARE_ROOM: usize = 4096;

/// How many octets of its piece a put lets through that is to fail.
pub const LET_THROUGH: usize = 3;

/// A kind of the calls of a run on its outside.
#[derive(Clone, Copy, PartialEq, Eq)]
pub enum Kind {
    /// A read of a file.
    Read,
    /// A put of the output.
    Put,
    /// A bind, a receive or a send of the link.
    Link,
}

impl Kind {
    /// How a run ends in which such a call fails.
    pub fn status(self) -> Status {
        match self {
            Kind::Read => Status::ReadFault,
            Kind::Put => Status::WriteFault,
            Kind::Link => Status::LinkFault,
        }
    }

    fn word(self) -> &'static str {
        match self {
            Kind::Read => "read",
            Kind::Put => "put",
            Kind::Link => "link call",
        }
    }
}

/// A call that is to fail: the one of its kind with that number, from 1.
#[derive(Clone, Copy)]
pub struct FailingCall {
    pub kind: Kind,
    pub number: usize,
}

impl FailingCall {
    /// What is told of it behind the title of a case.
    pub fn text(&self, alloc: Global) -> Result<String, AllocError> {
        let word = self.kind.word();
        let number = self.number;
        format!(in alloc; ", {word} {number} fails")
    }
}

/// The files of a case, its output and its link.
#[derive(Drop)]
pub struct Outside {
    shelf: MemShelf,
    out: MemSink,
    pub link: MemLink,
}

impl Outside {
    /// As it is before a run, with room for so many octets that are expected. Where the case cuts a capture, only so many octets of
    /// that are there.
    pub fn new(
        alloc: Global,
        case: &Case,
        front: Option<u32>,
        expected: usize,
    ) -> Result<Outside, Trouble> {
        let mut shelf = MemShelf::new(alloc);
        shelf.add("capture", capture_of(case, 1, front)?)?;
        shelf.add("capture2", capture_of(case, 2, front)?)?;
        shelf.add("capture3", capture_of(case, 3, front)?)?;
        shelf.add("capture4", capture_of(case, 4, front)?)?;
        shelf.add("requests", &case.requests)?;
        if let Some(other) = &case.other {
            shelf.add("other", other)?;
        }
        let mut out = MemSink::new(alloc);
        out.reserve(expected.saturating_add(SPARE_ROOM))?;
        for put in &case.failing_puts {
            out.fail(*put, 0)?;
        }
        let link = case.traffic.link()?;
        Ok(Outside { shelf, out, link })
    }

    /// Lists a call that is to fail.
    pub fn fail(&mut self, call: FailingCall) -> Result<(), Trouble> {
        let number = call.number as u64;
        match call.kind {
            Kind::Read => self.shelf.fail(number)?,
            Kind::Put => self.out.fail(number, LET_THROUGH)?,
            Kind::Link => self.link.fail(number)?,
        }
        Ok(())
    }

    /// Has each read give so many octets at most.
    pub fn give_pieces(&mut self, most: u32) -> Result<(), Trouble> {
        if most == 0 {
            return Err(Trouble::Form("pieces of no octet"));
        }
        self.shelf.pieces(most as usize);
        Ok(())
    }

    /// Calls the outside, and tells whether that failed. Nothing is put or sent.
    pub fn fails_at(&mut self, kind: Kind) -> bool {
        match kind {
            Kind::Read => self.shelf.read("capture", 0, &mut [0]).is_err(),
            Kind::Put => self.out.put(b"").is_err(),
            Kind::Link => self.link.bind(0).is_err(),
        }
    }

    /// What was written.
    pub fn text(&self) -> Result<&str, Trouble> {
        str::from_utf8(self.out.bytes()).map_err(|_| Trouble::Form("the output isn't text"))
    }

    /// Runs the case, by `replay` where it gives settings, and else by `run`.
    pub fn run(&mut self, alloc: Global, case: &Case) -> Result<Status, Trouble> {
        if !case.given.is_any {
            let words = words_of(alloc, case)?;
            let mut clock = case.traffic.clock()?;
            return Ok(run(
                alloc,
                &words,
                &mut self.shelf,
                &mut self.out,
                &mut self.link,
                &mut clock,
            ));
        }
        if case.words.is_some() || case.interfaces() > 1 {
            return Err(Trouble::Form("words or interfaces beside settings before this line"));
        }
        let settings = case.given.settings()?;
        let lead = case.given.lead;
        Ok(replay(
            alloc,
            settings,
            lead,
            "capture",
            None,
            None,
            None,
            "requests",
            &mut self.shelf,
            &mut self.out,
        ))
    }
}

// The octets of the capture of an interface, and only so many of them where the case cuts it.
fn capture_of(case: &Case, interface: usize, front: Option<u32>) -> Result<&[u8], Trouble> {
    let octets = case.octets_of(interface);
    match (case.fronts, front) {
        (Some(fronts), Some(front)) if fronts.interface == interface => octets
            .get(..front as usize)
            .ok_or(Trouble::Form("a front that is longer than the capture")),
        _ => Ok(octets),
    }
}

// The command of a case with so many interfaces that gives no words.
fn command_for(interfaces: usize) -> &'static str {
    match interfaces {
        0 | 1 => "replay capture requests",
        2 => "replay capture requests --if2 capture2",
        3 => "replay capture requests --if2 capture2 --if3 capture3",
        _ => "replay capture requests --if2 capture2 --if3 capture3 --if4 capture4",
    }
}

// The words of the command. "" stands for an empty one.
fn words_of(alloc: Global, case: &Case) -> Result<Words, Trouble> {
    let mut words = Words::new(alloc);
    let text = match &case.words {
        Some(text) => text.as_str(),
        None => command_for(case.interfaces()),
    };
    for word in text.split_whitespace() {
        words.add(if word == "\"\"" { "" } else { word })?;
    }
    Ok(words)
}
