// How a run ended.
ghost use Rattle.std.specs.Prelude.{◌≡◌, Some};

use rm_captures::CaptureFault;
use rm_pcap::PcapFault;
use rm_requests::RequestsFault;
use std::fmt::{self, Display, Formatter, Write};

/// How a run ended.
#[derive(Clone, Copy, Debug, PartialEq, Eq)]
pub enum Status {
    /// The command did all that it does.
    Done,
    /// The words aren't a command.
    Usage,
    /// The capture of that interface breaks a rule of its form first at that offset.
    BadCapture { interface: u32, at: u64 },
    /// That line of the request file, from 1, is the first that isn't of the form or whose moment falls.
    BadRequests(u64),
    /// A read failed.
    ReadFault,
    /// A write failed.
    WriteFault,
    /// There was no memory.
    NoMemory,
    /// A call on the socket failed.
    LinkFault,
    /// A capture has too many records, or the request file too many lines.
    TooLong,
}

impl Status {
    ghost use Rattle.rm_probe.specs.Requests.{status_by};
    ghost use Rattle.rm_probe.specs.Status.{number_of};

    /// The exit status of the program that ends so.
    pub fn number(&self) -> u8
        ensures { result ≡ number_of self.now }
    {
        match self {
            Status::Done => 0,
            Status::Usage => 2,
            Status::BadCapture { .. } => 3,
            Status::BadRequests(_) => 4,
            Status::ReadFault => 5,
            Status::WriteFault => 6,
            Status::NoMemory => 7,
            Status::LinkFault => 8,
            Status::TooLong => 9,
        }
    }

    /// How a run ends by a fault of its request file.
    pub(crate) fn of_requests(fault: RequestsFault) -> Status
        ensures { result ≡ status_by fault }
    {
        match fault {
            RequestsFault::Line(line) => Status::BadRequests(line),
            RequestsFault::TooLong => Status::TooLong,
            RequestsFault::Read => Status::ReadFault,
        }
    }
}

/// How a run ends by a fault of one of its captures.
impl From<CaptureFault> for Status {
    ghost use Rattle.rm_probe.specs.Capture.{status_of};

    ghost from_gives = { λ found status. status ≡ status_of found };

    fn from(found: CaptureFault) -> Status {
        let interface = found.interface;
        match found.fault {
            PcapFault::Magic => Status::BadCapture { interface, at: 0 },
            PcapFault::Version => Status::BadCapture { interface, at: 4 },
            PcapFault::LinkType => Status::BadCapture { interface, at: 20 },
            PcapFault::Included(at) | PcapFault::Original(at) | PcapFault::Late(at) => {
                Status::BadCapture { interface, at }
            }
            PcapFault::TooMany => Status::TooLong,
            PcapFault::Read => Status::ReadFault,
            PcapFault::NoMemory => Status::NoMemory,
        }
    }
}

/// What the program says of it on standard error.
impl Display for Status {
    ghost use Rattle.rm_probe.specs.Status.{text_of};

    ghost output = { λ status. Some (text_of status) };

    fn fmt<W: Write>(&self, f: &mut Formatter<W>) -> fmt::Result {
        match self {
            Status::Done => f.write_str("done"),
            Status::Usage => f.write_str("usage"),
            Status::BadCapture { interface, at } => write!(f, "bad capture {interface} at {at}"),
            Status::BadRequests(line) => write!(f, "bad requests in line {line}"),
            Status::ReadFault => f.write_str("read fault"),
            Status::WriteFault => f.write_str("write fault"),
            Status::NoMemory => f.write_str("no memory"),
            Status::LinkFault => f.write_str("link fault"),
            Status::TooLong => f.write_str("too long"),
        }
    }
}
