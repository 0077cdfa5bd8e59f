// What comes and goes over the link of a case.
use crate::difference::Difference;
use case_text::Trouble;
use rm_edge::{ListClock, MemLink, Peer};
use std::alloc::{AllocError, Global};

/// How many more datagrams can be sent than those that are expected.
const SPARE_SENDS: usize = 4;

// A datagram that comes, and the moment that the clock then tells.
#[derive(Drop)]
struct Arriving {
    moment: u32,
    from: Peer,
    octets: Vec<u8>,
}

// A datagram that is to be sent, the line of the file that says so, and how many lines are written up to it.
#[derive(Drop)]
struct Leaving {
    line: usize,
    lines: usize,
    to: Peer,
    octets: Vec<u8>,
}

/// What comes over a link, what is to be sent over it, and which of its calls fail.
#[derive(Drop)]
pub struct Traffic {
    alloc: Global,
    arriving: Vec<Arriving>,
    leaving: Vec<Leaving>,
    failing: Vec<u64>,
}

impl Traffic {
    /// No datagram, and no call that fails.
    pub fn new(alloc: Global) -> Traffic {
        Traffic {
            alloc,
            arriving: Vec::new(alloc),
            leaving: Vec::new(alloc),
            failing: Vec::new(alloc),
        }
    }

    /// Adds a datagram that comes. The clock then tells the moment.
    pub fn arrive(&mut self, moment: u32, from: Peer, octets: &[u8]) -> Result<(), Trouble> {
        let octets = Vec::from_slice(self.alloc, octets)?;
        Ok(
            self.arriving.push(Arriving {
                moment,
                from,
                octets,
            })?,
        )
    }

    /// Adds a datagram that is to be sent next: the message that an output line ends with, which is the last of so many lines.
    pub fn leave(
        &mut self,
        line: usize,
        lines: usize,
        to: Peer,
        output: &str,
    ) -> Result<(), Trouble> {
        let octets = message_of(self.alloc, output)?;
        Ok(
            self.leaving.push(Leaving {
                line,
                lines,
                to,
                octets,
            })?,
        )
    }

    /// Adds the number of a call of the link that fails.
    pub fn fail(&mut self, call: u64) -> Result<(), Trouble> {
        Ok(self.failing.push(call)?)
    }

    /// The link before the run.
    pub fn link(&self) -> Result<MemLink, Trouble> {
        let mut link = MemLink::new(self.alloc);
        for datagram in &self.arriving {
            link.add(datagram.from, &datagram.octets)?;
        }
        for call in &self.failing {
            link.fail(*call)?;
        }
        link.reserve(self.leaving.len().saturating_add(SPARE_SENDS))?;
        Ok(link)
    }

    /// The clock before the run.
    pub fn clock(&self) -> Result<ListClock, Trouble> {
        let mut clock = ListClock::new(self.alloc);
        for datagram in &self.arriving {
            clock.add(datagram.moment)?;
        }
        Ok(clock)
    }

    /// The first datagram that was sent otherwise than it is expected of so many lines. One that isn't expected is told of that line.
    pub fn difference(
        &self,
        line: usize,
        lines: usize,
        link: &MemLink,
    ) -> Result<Option<Difference>, Trouble> {
        let leaving = self.leaving_by(lines);
        for (place, datagram) in leaving.iter().enumerate() {
            let found = link.sent(place);
            if !datagram.is(found) {
                let expected = sent_text(self.alloc, Some((datagram.to, &datagram.octets)))?;
                return Ok(Some(self.difference_at(datagram.line, expected.as_str(), found)?));
            }
        }
        match link.sent(leaving.len()) {
            None => Ok(None),
            found => Ok(Some(self.difference_at(line, "no further datagram sent", found)?)),
        }
    }

    // The datagrams that are sent once so many lines are written.
    fn leaving_by(&self, lines: usize) -> &[Leaving] {
        let later = self
            .leaving
            .iter()
            .position(|datagram| datagram.lines > lines);
        match later {
            Some(later) => self.leaving.get(..later).unwrap_or(&self.leaving),
            None => &self.leaving,
        }
    }

    fn difference_at(
        &self,
        line: usize,
        expected: &str,
        found: Option<(Peer, &[u8])>,
    ) -> Result<Difference, AllocError> {
        let sent = sent_text(self.alloc, found)?;
        Difference::new(self.alloc, line, expected, sent.as_str())
    }
}

impl Leaving {
    // Whether it is what was sent.
    fn is(&self, sent: Option<(Peer, &[u8])>) -> bool {
        match sent {
            Some((to, octets)) => to == self.to && octets == self.octets.as_slice(),
            None => false,
        }
    }
}

// The octets that a line of the output ends with: those of a reply or a notification.
fn message_of(alloc: Global, output: &str) -> Result<Vec<u8>, Trouble> {
    for word in [" reply ", " trap "] {
        if let Some((_, digits)) = output.split_once(word) {
            return hex::decode(alloc, digits).map_err(|_| Trouble::Form("no message to send"));
        }
    }
    Err(Trouble::Form("no message in the line before"))
}

// What was sent, as text.
fn sent_text(alloc: Global, sent: Option<(Peer, &[u8])>) -> Result<String, AllocError> {
    let Some((to, octets)) = sent else {
        return String::from_str(alloc, "no datagram sent");
    };
    let [first, second, third, fourth] = to.ip;
    let port = to.port;
    let digits = hex::encode(alloc, octets)?;
    format!(in alloc; "sent to {first}.{second}.{third}.{fourth}:{port} {digits}")
}
