//! A million references of hosts, and half a million of pairs of hosts, into tables that can't hold them all; and what they hold then.
#![tactic(auto)]

mod load;
mod loaded;
mod report;
mod times;

use load::{load_hosts, load_pairs};
use report::report;
use rm_val::NoMemory;
use std::io;
use std::process::ExitCode;

/// How many frames there are.
const FRAMES: u32 = 500_000;

/// How many hosts are held, of 64.
const HELD_HOSTS: u32 = 40;

/// How many pairs are held, of 4096.
const HELD_PAIRS: u32 = 1000;

// Every row of the hosts is shown, and of the pairs those at either end.
fn run(rt: HostRuntime) -> io::Result<()> {
    let hosts = load_hosts(rt.alloc(), HELD_HOSTS, FRAMES).map_err(io_error)?;
    report(&rt, "hosts", &hosts, 20)?;
    let pairs = load_pairs(rt.alloc(), HELD_PAIRS, FRAMES).map_err(io_error)?;
    report(&rt, "pairs", &pairs, 10)
}

fn io_error(_: NoMemory) -> io::Error {
    io::Error::from(io::ErrorKind::OutOfMemory)
}

fn main(rt: HostRuntime) -> ExitCode {
    match run(rt) {
        Ok(()) => ExitCode::SUCCESS,
        Err(_) => ExitCode::FAILURE,
    }
}
