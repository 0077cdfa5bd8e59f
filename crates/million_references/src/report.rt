// The lines that show what a table holds.
ghost use Rattle.std.specs.Prelude.{◌<◌};
ghost use Rattle.million_references.specs.declared.report.TheConstants.{BELOW};

use crate::loaded::Loaded;
use std::{fmt, io};

/// The octets of a key, in hexadecimal digits.
#[derive(Clone, Copy)]
struct Digits<'a> {
    octets: &'a [u8],
}

impl<'a> fmt::Display for Digits<'a> {
    fn fmt<W: fmt::Write>(&self, f: &mut fmt::Formatter<W>) -> fmt::Result {
        for octet in self.octets {
            write!(f, "{octet:02x}")?;
        }
        Ok(())
    }
}

/// A row as a line shows it.
#[derive(Clone, Copy)]
struct Shown<'a> {
    rank: usize,
    key: &'a [u8],
    entry: u64,
    tick: u32,
    count: u64,
}

// The row of a rank, to be shown.
fn ranked<'a, const N: usize>(loaded: &'a Loaded<[u8; N]>, rank: usize) -> Option<Shown<'a>> {
    let key = loaded.rows.made(rank)?;
    let rows = loaded.rows.rows();
    Some(Shown {
        rank,
        key,
        entry: rows.entry(key)?,
        tick: rows.mark(key)?,
        count: rows.get(key)?.count,
    })
}

/// What checksums are below.
const BELOW: u64 = 2_147_483_647;

/// By what a checksum is multiplied before a number is added.
const MULTIPLIER: u64 = 1_000_003;

/// A checksum of numbers, in their order.
#[derive(Clone, Copy)]
struct Checksum {
    value: u64,
    ghost below: { value < BELOW },
}

impl Checksum {
    fn new() -> Checksum {
        Checksum { value: 0 }
    }

    fn take(&mut self, number: u64) {
        self.value = (MULTIPLIER * self.value + number % BELOW) % BELOW;
    }

    fn take_octets(&mut self, octets: &[u8]) {
        for octet in octets {
            self.take(u64::from(*octet));
        }
    }

    fn take_row(&mut self, row: &Shown) {
        self.take(row.rank as u64);
        self.take_octets(row.key);
        self.take(row.entry);
        self.take(u64::from(row.tick));
        self.take(row.count);
    }
}

fn print_row(rt: &impl Print, row: &Shown) -> io::Result<()> {
    let key = Digits { octets: row.key };
    println!(rt;
        "{} {key} {} {} {}",
        row.rank, row.entry, row.tick, row.count
    )
}

// The first and the last rows in order of entry, so many of each, and a checksum of all.
fn report_rows<const N: usize>(
    rt: &impl Print,
    loaded: &Loaded<[u8; N]>,
    ends: usize,
) -> io::Result<()> {
    let mut checksum = Checksum::new();
    let count = loaded.rows.len();
    for rank in 1..=count {
        if let Some(row) = ranked(loaded, rank) {
            checksum.take_row(&row);
            if rank <= ends || count - rank < ends {
                print_row(rt, &row)?;
            }
        }
    }
    println!(rt; "checksum of the rows {}", checksum.value)
}

// A checksum of the keys in their order.
fn report_keys<const N: usize>(rt: &impl Print, loaded: &Loaded<[u8; N]>) -> io::Result<()> {
    let mut checksum = Checksum::new();
    let mut last: Option<[u8; N]> = None;
    for _ in 0..loaded.rows.len() {
        if let Some(key) = loaded.rows.rows().after(last.as_ref()) {
            checksum.take_octets(key);
            last = Some(*key);
        }
    }
    println!(rt; "checksum of the keys in their order {}", checksum.value)
}

/// Shows what a table holds: how many rows have given way and at which tick the last one did, the rows in order of entry, so many at
/// either end, and checksums of all rows, and of the keys in their own order.
pub fn report<const N: usize>(
    rt: &impl Print,
    name: &str,
    loaded: &Loaded<[u8; N]>,
    ends: usize,
) -> io::Result<()> {
    let capacity = loaded.capacity;
    let evictions = loaded.evictions;
    let last = loaded.rows.last_delete();
    println!(rt; "{name}: {capacity} held, {evictions} evictions, the last at tick {last}")?;
    report_rows(rt, loaded, ends)?;
    report_keys(rt, loaded)
}
