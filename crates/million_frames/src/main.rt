//! A million frames that are made from a number, given to the probe by its command `load`.
#![tactic(auto)]

ghost use Rattle.std.specs.Prelude.{◌≡◌, [], ◌∷◌, codes, IfOk};

use rm_cmd::{Status, run};
use rm_edge::{Counted, FileShelf, ListClock, MemLink, StdSink, Words};
use rm_val::NoMemory;
use std::alloc::Global;
use std::process::ExitCode;

fn load_words(alloc: Global) -> Result<Words, NoMemory>
    ensures { IfOk result (λ words. words ≡ codes "load" ∷ codes "7" ∷ codes "1000000" ∷ codes "--pairs" ∷ codes "4096" ∷ []) }
{
    let mut words = Words::new(alloc);
    words.add("load")?;
    words.add("7")?;
    words.add("1000000")?;
    words.add("--pairs")?;
    words.add("4096")?;
    Ok(words)
}

// The command reads no file, and uses neither the link nor the clock.
fn run_load(rt: HostRuntime) -> Result<Status, NoMemory> {
    let alloc = rt.alloc();
    let words = load_words(alloc)?;
    let mut shelf = Counted::new(FileShelf(rt));
    let mut out = Counted::new(StdSink(rt));
    let mut link = MemLink::new(alloc);
    let mut clock = ListClock::new(alloc);
    Ok(run(alloc, &words, &mut shelf, &mut out, &mut link, &mut clock))
}

fn main(rt: HostRuntime) -> ExitCode {
    let status = match run_load(rt) {
        Ok(status) => status,
        Err(NoMemory) => Status::NoMemory,
    };
    ExitCode::from(status.number())
}
