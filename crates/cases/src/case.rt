// A case, as the statements of a file tell it.
use crate::given::Given;
use crate::status::status;
use crate::traffic::Traffic;
use case_text::{
    Capture, Datagram, Frame, Names, Statement, Trouble, first_number, first_word, number, octets,
    peer, read_frame, with_digits,
};
use rm_cmd::Status;
use rm_edge::Peer;
use std::alloc::Global;
use std::fmt::Write;
use std::mem;

// The most interfaces.
const INTERFACES: usize = 4;

/// How much of a capture is there: from so many of its octets to below so many, in a run each.
#[derive(Clone, Copy)]
pub struct Fronts {
    /// The interface of the capture.
    pub interface: usize,
    pub low: u32,
    pub end: u32,
}

/// A case: what a run is given, and what it is to write.
#[derive(Drop)]
pub struct Case {
    alloc: Global,
    /// Its first line in the file.
    pub line: usize,
    pub title: String,
    pub given: Given,
    /// The words of the command, where the case gives them.
    pub words: Option<String>,
    // The captures of the lower interfaces, in their order.
    lower: Vec<Capture>,
    // The capture of the last interface.
    capture: Capture,
    /// Which capture is cut, and where, if the case says so.
    pub fronts: Option<Fronts>,
    /// The octets of the request file.
    pub requests: Vec<u8>,
    /// Those of a file of the name `other`.
    pub other: Option<Vec<u8>>,
    /// What comes and goes over the link.
    pub traffic: Traffic,
    /// How many octets a read gives at most in a run of its own, where the case says so.
    pub pieces: Option<u32>,
    /// Whether each call on the outside fails in a run of its own.
    pub each_call_fails: bool,
    /// The numbers of the puts of the output that fail.
    pub failing_puts: Vec<u64>,
    /// How the run ends.
    pub status: Status,
    /// The lines that it writes.
    pub expected: Vec<Statement>,
    /// How many datagrams are asked.
    pub asked: usize,
    // The datagram whose answer comes next, and its moment.
    waiting: Option<(u32, Datagram)>,
}

impl Case {
    /// A case without a statement.
    pub fn new(alloc: Global, line: usize, title: &str) -> Result<Case, Trouble> {
        if title.is_empty() {
            return Err(Trouble::Form("a case without a title"));
        }
        Ok(Case {
            alloc,
            line,
            title: String::from_str(alloc, title)?,
            given: Given::new(alloc)?,
            words: None,
            lower: Vec::new(alloc),
            capture: Capture::new(alloc)?,
            fronts: None,
            requests: Vec::new(alloc),
            other: None,
            traffic: Traffic::new(alloc),
            pieces: None,
            each_call_fails: false,
            failing_puts: Vec::new(alloc),
            status: Status::Done,
            expected: Vec::new(alloc),
            asked: 0,
            waiting: None,
        })
    }

    /// Takes a statement.
    pub fn take(&mut self, names: &Names, statement: &Statement) -> Result<(), Trouble> {
        let text = statement.text.as_str();
        let (word, rest) = first_word(text);
        match word {
            "->" => return self.take_answer(names, statement.line, rest),
            "line" => {
                let line = with_digits(self.alloc, rest)?;
                return self.expect(statement.line, line.as_str());
            }
            "end" | "cut" => return self.expect(statement.line, text),
            "sent" => self.take_sent(statement.line, rest),
            "link" => self.traffic.fail(failing_call(rest)?),
            "each" => self.take_each(rest),
            "output" => Ok(self.failing_puts.push(failing_call(rest)?)?),
            "setting" => self.given.take(self.alloc, rest),
            "words" => {
                self.words = Some(with_digits(self.alloc, rest)?);
                Ok(())
            }
            "interface" => self.take_interface(rest),
            "capture" => self.capture.push_octets(&octets(self.alloc, rest)?),
            "record" => self.take_record(rest),
            "front" => self.take_fronts(rest),
            "pieces" => {
                self.pieces = Some(number(rest)?);
                Ok(())
            }
            "requests" => Ok(self.requests.extend_from_slice(&octets(self.alloc, rest)?)?),
            "other" => {
                self.other = Some(octets(self.alloc, rest)?);
                Ok(())
            }
            "status" => {
                self.status = status(rest)?;
                Ok(())
            }
            _ => {
                let moment = number(word).map_err(|_| Trouble::Form("no statement"))?;
                self.take_at(names, statement.line, moment, rest)
            }
        }
    }

    /// Whether the case is whole: a datagram has no answer yet where it isn't.
    pub fn end(&self) -> Result<(), Trouble> {
        match self.waiting {
            None => Ok(()),
            Some(_) => Err(Trouble::Form("a datagram without an answer before this line")),
        }
    }

    /// Whether the earliest frame that a capture begins with stands at the moment of the first frame of all.
    pub fn begins(&self) -> Result<(), Trouble> {
        let mut least = self.capture.first;
        for capture in &self.lower {
            least = earlier(least, capture.first);
        }
        match least {
            Some(moment) if moment != self.given.lead => {
                Err(Trouble::Form("a first frame at another moment before this line"))
            }
            _ => Ok(()),
        }
    }

    /// How many interfaces have a capture.
    pub fn interfaces(&self) -> usize {
        self.lower.len().saturating_add(1)
    }

    /// The octets of the capture of an interface. There are none where it has no capture.
    pub fn octets_of(&self, interface: usize) -> &[u8] {
        let place = interface.saturating_sub(1);
        match self.lower.get(place) {
            Some(capture) => capture.octets.as_slice(),
            None if place == self.lower.len() => self.capture.octets.as_slice(),
            None => &[],
        }
    }

    /// The line of the file that says which line is written at a place, counted from 0.
    pub fn line_of(&self, place: usize) -> usize {
        self.expected.get(place).map_or(self.line, |line| line.line)
    }

    // `call fails`.
    fn take_each(&mut self, text: &str) -> Result<(), Trouble> {
        if text != "call fails" {
            return Err(Trouble::Form("no call fails behind each"));
        }
        self.each_call_fails = true;
        Ok(())
    }

    // The line that the run writes next.
    fn expect(&mut self, line: usize, text: &str) -> Result<(), Trouble> {
        self.end()?;
        let text = String::from_str(self.alloc, text)?;
        Ok(self.expected.push(Statement { line, text })?)
    }

    fn take_record(&mut self, text: &str) -> Result<(), Trouble> {
        let (seconds, rest) = first_number(text)?;
        let (fraction, rest) = first_number(rest)?;
        let (captured, rest) = first_number(rest)?;
        let frame = Frame::zeros(self.alloc, captured, number(rest)?);
        self.capture.push_record(seconds, fraction, &frame)
    }

    // `N`: the next interface. Frames behind it go into its capture.
    fn take_interface(&mut self, text: &str) -> Result<(), Trouble> {
        let next = self.interfaces().saturating_add(1);
        if next > INTERFACES || number(text)? as usize != next {
            return Err(Trouble::Form("no interface 2 to 4, or not the next one"));
        }
        let higher = Capture::new(self.alloc)?;
        let capture = mem::replace(&mut self.capture, higher);
        Ok(self.lower.push(capture)?)
    }

    // `N` or `N to M`.
    fn take_fronts(&mut self, text: &str) -> Result<(), Trouble> {
        let (low, high) = match text.split_once(" to ") {
            Some((low, high)) => (number(low)?, number(high)?),
            None => (number(text)?, number(text)?),
        };
        if low > high {
            return Err(Trouble::Form("from more octets to fewer"));
        }
        let end = high
            .checked_add(1)
            .ok_or(Trouble::Form("no number below 2^32 - 1"))?;
        self.fronts = Some(Fronts {
            interface: self.interfaces(),
            low,
            end,
        });
        Ok(())
    }

    // `to ADDRESS:PORT`: where the message of the line before is sent.
    fn take_sent(&mut self, line: usize, text: &str) -> Result<(), Trouble> {
        self.end()?;
        let (word, rest) = first_word(text);
        if word != "to" {
            return Err(Trouble::Form("no to behind sent"));
        }
        let to = self.peer(rest)?;
        match self.expected.last() {
            Some(last) => {
                let lines = self.expected.len();
                self.traffic.leave(line, lines, to, last.text.as_str())
            }
            None => Err(Trouble::Form("no line before what is sent")),
        }
    }

    fn peer(&self, text: &str) -> Result<Peer, Trouble> {
        let (ip, port) = peer(self.alloc, text)?;
        Ok(Peer { ip, port })
    }

    // What happens at a moment: frames, a datagram or a notification.
    fn take_at(
        &mut self,
        names: &Names,
        line: usize,
        moment: u32,
        text: &str,
    ) -> Result<(), Trouble> {
        let (kind, rest) = first_word(text);
        match kind {
            "frame" => self.take_frames(moment, 1, 0, rest),
            "frames" => {
                let (count, rest) = first_number(rest)?;
                let (word, rest) = first_word(rest);
                if word != "every" {
                    return Err(Trouble::Form("no every behind the number of frames"));
                }
                let (every, rest) = first_number(rest)?;
                self.take_frames(moment, count, every, rest)
            }
            "trap" => {
                let trap = Datagram::read(self.alloc, names, kind, rest)?;
                let digits = hex::encode(self.alloc, &trap.octets)?;
                let text = format!(in self.alloc; "{moment} trap {digits}")?;
                self.expect(line, text.as_str())
            }
            "from" => self.take_arriving(names, moment, rest),
            _ => self.ask(moment, self.datagram(names, kind, rest)?),
        }
    }

    fn datagram(&self, names: &Names, kind: &str, text: &str) -> Result<Datagram, Trouble> {
        match kind {
            "octets" => Datagram::of_octets(self.alloc, text),
            _ => Datagram::read(self.alloc, names, kind, text),
        }
    }

    fn take_frames(
        &mut self,
        moment: u32,
        count: u32,
        every: u32,
        text: &str,
    ) -> Result<(), Trouble> {
        let frame = read_frame(self.alloc, text)?;
        self.capture
            .push_frames(self.given.lead, moment, count, every, &frame)
    }

    // Adds a line to the request file. Its answer comes next.
    fn ask(&mut self, moment: u32, datagram: Datagram) -> Result<(), Trouble> {
        self.end()?;
        let digits = hex::encode(self.alloc, &datagram.octets)?;
        let text = format!(in self.alloc; "{moment} {digits}\n")?;
        self.requests.extend_from_slice(text.as_bytes())?;
        self.await_answer(moment, datagram);
        Ok(())
    }

    // `ADDRESS:PORT` and a datagram, which comes from there over the link. Its answer comes next.
    fn take_arriving(&mut self, names: &Names, moment: u32, text: &str) -> Result<(), Trouble> {
        self.end()?;
        let (from, rest) = first_word(text);
        let from = self.peer(from)?;
        let (kind, rest) = first_word(rest);
        let datagram = self.datagram(names, kind, rest)?;
        self.traffic.arrive(moment, from, &datagram.octets)?;
        self.await_answer(moment, datagram);
        Ok(())
    }

    fn await_answer(&mut self, moment: u32, datagram: Datagram) {
        self.asked = self.asked.saturating_add(1);
        self.waiting = Some((moment, datagram));
    }

    // The answer to the datagram before. `at MOMENT` before it is the moment of its line where that isn't the datagram's own.
    fn take_answer(&mut self, names: &Names, line: usize, text: &str) -> Result<(), Trouble> {
        let Some((own, datagram)) = self.waiting.take() else {
            return Err(Trouble::Form("an answer without a datagram"));
        };
        if text == "nothing" {
            return Ok(());
        }
        let (word, rest) = first_word(text);
        let (moment, text) = if word == "at" {
            first_number(rest)?
        } else {
            (own, text)
        };
        let answer = datagram.answer(self.alloc, names, text)?;
        let number = self.asked;
        let text = format!(in self.alloc; "{moment} {number} {answer}")?;
        self.expect(line, text.as_str())
    }

    /// The text that the run writes.
    pub fn text(&self) -> Result<String, Trouble> {
        let mut text = String::new(self.alloc);
        for line in &self.expected {
            writeln!(text, "{}", line.text)?;
        }
        Ok(text)
    }
}

// The earlier of two moments, where there are any.
fn earlier(one: Option<u32>, other: Option<u32>) -> Option<u32> {
    match (one, other) {
        (Some(one), Some(other)) => Some(one.min(other)),
        (Some(one), None) => Some(one),
        (None, other) => other,
    }
}

// `fails N`: the number of a call that fails.
fn failing_call(text: &str) -> Result<u64, Trouble> {
    let (word, rest) = first_word(text);
    if word != "fails" {
        return Err(Trouble::Form("no fails before the number of a call"));
    }
    Ok(u64::from(number(rest)?))
}
