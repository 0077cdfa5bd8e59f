// A request file that is read line by line.
ghost use Rattle.std.specs.Prelude.{◌≡◌, ◌≤◌, ◌*◌, ◌+◌, ℕ, List, [], length, drop, position, vec_len, Err, IfOk, OnOk, IsErr};
ghost use Rattle.rm_edge.specs.Outside.{File, Absent, HasCause, Rose};
ghost use Rattle.rm_edge.specs.Shelves.{KeepsShelf};
ghost use Rattle.rm_window.specs.Filling.{IsFront};
ghost use Rattle.rm_window.specs.Window.{room_of, octets_of};

use crate::fault::RequestsFault;
use crate::lines::{MOST_DATAGRAM, first_line, line_end, read_next};
use rm_edge::{Failed, Shelf};
use rm_window::Window;
use std::alloc::{AllocError, Global};

/// How many octets the window of a request file has room for.
const ROOM: usize = 196_608;

/// How many octets the longest line has, with its end.
const LONGEST_LINE: usize = 131_083;

/// The most lines of a request file.
const MOST_LINES: u64 = 1_000_000;

/// A request: the number of its line from 1, and the moment in milliseconds at which it comes.
#[derive(Clone, Copy)]
pub struct Request {
    pub number: u64,
    pub moment: u32,
}

/// A request file that is read line by line, through a window.
///
/// What its calls say of the file holds where each is given a shelf and a name that hold the same octets. All its memory
/// is reserved when it is made.
#[derive(Drop)]
pub struct Requests {
    // Its octets stand where the next line does.
    window: Window,
    // The datagram of the line that was read last stands at the front.
    datagram: Vec<u8>,
    count: usize,
    at: u64,
    number: u64,
    last: u32,
    ghost room: { room_of window ≡ 196608 },
    ghost buffer: { vec_len datagram ≡ 65535 },
    ghost within: { count ≤ 65535 },
    ghost near: { at ≤ 196608 * number },
    ghost first: { 1 ≤ number },
    ghost few: { number ≤ 1000001 },
}

impl Requests {
    ghost use Rattle.rm_requests.specs.Reading.{is_newline, reached_of, datagram_in, beginning, HoldsLine, Stays, Answers};

    /// Before the first line of a file.
    pub fn new(alloc: Global) -> Result<Requests, AllocError>
        ensures { IfOk result (λ requests. reached_of requests ≡ beginning) }
    {
        let window = Window::new(alloc, ROOM)?;
        let datagram = vec![in alloc; 0u8; MOST_DATAGRAM]?;
        Ok(Requests {
            window,
            datagram,
            count: 0,
            at: 0,
            number: 1,
            last: 0,
        })
    }

    /// Goes back before the first line.
    pub fn rewind(&mut self)
        ensures { reached_of self.new ≡ beginning }
    {
        self.window.truncate(0);
        self.at = 0;
        self.number = 1;
        self.last = 0;
    }

    /// How many lines were passed.
    pub fn passed(&self) -> u64
        ensures { result + 1 ≡ (reached_of self.now).number }
    {
        self.number - 1
    }

    /// The datagram of the line that was read last.
    pub fn datagram(&self) -> &[u8]
        ensures { result.now ≡ datagram_in self.now }
    {
        &self.datagram[..self.count]
    }

    // Where the first line feed stands in the window. It has one, or all that the file has left, or more than any line has.
    fn line_end<S: Shelf>(&mut self, shelf: &mut S, name: &str) -> Result<Option<usize>, Failed>
        ensures shelf { KeepsShelf S.held S.faults shelf.old shelf.new (λ each. each ≡ name.now) (IsErr result) }
        ensures cause { HasCause (S.faults shelf.old name.now) (S.faults shelf.new name.now) result }
        ensures end { IfOk result (λ end. end ≡ position is_newline (octets_of self.new.window)) }
        ensures stays { Stays (reached_of self.old) (reached_of self.new) }
        ensures holds { (bytes : List ℕ) → S.held shelf.old name.now ≡ File bytes → IsFront (octets_of self.old.window) (drop self.old.at bytes)
            → OnOk result (HoldsLine (octets_of self.new.window) (drop self.old.at bytes)) }
        ensures absent { S.held shelf.old name.now ≡ Absent → octets_of self.old.window ≡ [] → IsErr result }
    {
        if let Some(end) = line_end(self.window.octets()) {
            return Ok(Some(end));
        }
        self.window.hold(shelf, name, self.at, LONGEST_LINE)?;
        Ok(line_end(self.window.octets()))
    }

    // Passes a line of so many octets.
    fn pass(&mut self, passed: usize, moment: u32)
        requires few { self.old.number ≤ 1000000 }
        requires within { passed ≤ length (octets_of self.old.window) }
        ensures at { self.new.at ≡ self.old.at + passed }
        ensures number { self.new.number ≡ self.old.number + 1 }
        ensures last { self.new.last ≡ moment }
        ensures read { octets_of self.new.window ≡ drop passed (octets_of self.old.window) }
        ensures datagram { datagram_in self.new ≡ datagram_in self.old }
    {
        self.window.pass(passed);
        self.at += passed as u64;
        self.number += 1;
        self.last = moment;
    }

    /// Reads the next line, which is passed where it is a request. None comes exactly at the end of the file.
    ///
    /// Line comes exactly where the next line isn't of the form or its moment falls, TooLong where line 1,000,001 is
    /// reached, whatever stands in it, and Read only where a read failed. A name without a file fails with Read before the
    /// first line. After a fault nothing was passed.
    pub fn next<S: Shelf>(
        &mut self,
        shelf: &mut S,
        name: &str,
    ) -> Result<Option<Request>, RequestsFault>
        ensures shelf { KeepsShelf S.held S.faults shelf.old shelf.new (λ each. each ≡ name.now) (result ≡ Err RequestsFault.Read) }
        ensures cause { result ≡ Err RequestsFault.Read → Rose (S.faults shelf.old name.now) (S.faults shelf.new name.now) }
        ensures answers { Answers (S.held shelf.old name.now) (reached_of self.old) (reached_of self.new) (datagram_in self.new) result }
        ensures absent { S.held shelf.old name.now ≡ Absent → (reached_of self.old).read ≡ [] → result ≡ Err RequestsFault.Read }
    {
        let Ok(end) = self.line_end(shelf, name) else {
            return Err(RequestsFault::Read);
        };
        if self.window.len() == 0 {
            return Ok(None);
        }
        let number = self.number;
        if number > MOST_LINES {
            return Err(RequestsFault::TooLong);
        }
        let (line, passed) = first_line(self.window.octets(), end);
        let Some((moment, count)) = read_next(self.last, line, &mut self.datagram) else {
            return Err(RequestsFault::Line(number));
        };
        self.count = count;
        self.pass(passed, moment);
        Ok(Some(Request { number, moment }))
    }
}
