//! The probe: replays captures, and answers the datagrams of a request file or those that come to a port.
#![tactic(auto)]

use rm_cmd::{Status, run};
use rm_edge::{Counted, FileShelf, HostClock, StdSink, UdpLink, Words};
use std::env;
use std::io::ErrorKind;
use std::process::ExitCode;

// The words of the command line, without the program's own name.
fn words(rt: &HostRuntime) -> Result<Words, Status> {
    let mut words = Words::new(rt.alloc());
    let all = match env::args(rt) {
        Ok(all) => all,
        Err(error) => return Err(unread(error.kind())),
    };
    for word in all.skip(1) {
        if words.add(word.as_str()).is_err() {
            return Err(Status::NoMemory);
        }
    }
    Ok(words)
}

// Why the words couldn't be read: for want of memory, or since one isn't UTF-8.
fn unread(kind: ErrorKind) -> Status {
    match kind {
        ErrorKind::OutOfMemory => Status::NoMemory,
        _ => Status::Usage,
    }
}

fn status(rt: HostRuntime) -> Status {
    let words = match words(&rt) {
        Ok(words) => words,
        Err(status) => return status,
    };
    let alloc = rt.alloc();
    let mut shelf = Counted::new(FileShelf(rt));
    let mut out = Counted::new(StdSink(rt));
    let mut link = Counted::new(UdpLink::new(rt));
    let mut clock = HostClock::new(rt);
    run(alloc, &words, &mut shelf, &mut out, &mut link, &mut clock)
}

fn main(rt: HostRuntime) -> ExitCode {
    let status = status(rt);
    if status != Status::Done {
        let _ = eprintln!(rt; "rmonprobe: {status}");
    }
    ExitCode::from(status.number())
}
