//! An example of a program that calls the probe: it sums up the capture of an office, and replays it.
#![tactic(auto)]

ghost use Rattle.std.specs.Prelude.{◌≡◌, [], ◌∷◌, codes, IfOk};

use rm_cmd::{Status, run};
use rm_edge::{Counted, FileShelf, ListClock, MemLink, StdSink, Words};
use rm_val::NoMemory;
use std::alloc::Global;
use std::process::ExitCode;

fn summary_words(alloc: Global) -> Result<Words, NoMemory>
    ensures { IfOk result (λ words. words ≡ codes "summary" ∷ codes "office.pcap" ∷ []) }
{
    let mut words = Words::new(alloc);
    words.add("summary")?;
    words.add("office.pcap")?;
    Ok(words)
}

fn replay_words(alloc: Global) -> Result<Words, NoMemory>
    ensures { IfOk result (λ words. words ≡ codes "replay" ∷ codes "--lead=1000" ∷ codes "office.pcap" ∷ codes "office.requests" ∷ []) }
{
    let mut words = Words::new(alloc);
    words.add("replay")?;
    words.add("--lead=1000")?;
    words.add("office.pcap")?;
    words.add("office.requests")?;
    Ok(words)
}

// Files are read in the folder that the program runs in. No command of these words uses the link or the clock.
fn run_words(rt: HostRuntime, words: &Words) -> Status {
    let alloc = rt.alloc();
    let mut shelf = Counted::new(FileShelf(rt));
    let mut out = Counted::new(StdSink(rt));
    let mut link = MemLink::new(alloc);
    let mut clock = ListClock::new(alloc);
    run(alloc, words, &mut shelf, &mut out, &mut link, &mut clock)
}

// Sums up the capture, and then replays it.
fn run_office(rt: HostRuntime) -> Result<Status, NoMemory> {
    match run_words(rt, &summary_words(rt.alloc())?) {
        Status::Done => Ok(run_words(rt, &replay_words(rt.alloc())?)),
        status => Ok(status),
    }
}

fn main(rt: HostRuntime) -> ExitCode {
    let status = match run_office(rt) {
        Ok(status) => status,
        Err(NoMemory) => Status::NoMemory,
    };
    ExitCode::from(status.number())
}
