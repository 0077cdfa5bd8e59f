// The load: frames between hosts that a linear generator draws.
ghost use Rattle.std.specs.Prelude.{◌≡◌, ◌+◌, ◌<◌, ◌≤◌, ◌^◌, ◌++◌, IfOk};
ghost use Rattle.std.specs.Str.{bytes_eq};
ghost use Rattle.rm_keyed.specs.declared.keyed.TheConstants.{MOST_ROWS};
ghost use Rattle.million_references.specs.Loaded.{IsHeld};
ghost use Rattle.million_references.specs.Load.{next, address, source_in, destination_in, host_references, pair_references};

use crate::loaded::Loaded;
use rm_val::NoMemory;
use std::alloc::Global;

/// What the generator begins with.
pub const START: u64 = 7;

/// By what it multiplies a number.
pub const FACTOR: u64 = 1_103_515_245;

/// What it adds then.
pub const SUMMAND: u64 = 12_345;

/// What it divides by last: the remainder is the next number.
pub const MODULUS: u64 = 2_147_483_648;

/// How many hosts frames go between.
pub const HOSTS: u64 = 64;

/// The moment before the first frame, in milliseconds. A frame comes each millisecond.
pub const FIRST_MOMENT: u32 = 1000;

// The number after a number.
fn next_number(number: u64) -> u64
    requires { number < MODULUS }
    ensures next { result ≡ next number }
    ensures below { result < MODULUS }
{
    (FACTOR * number + SUMMAND) % MODULUS
}

// The address of a host.
fn host_address(host: u64) -> [u8; 6]
    requires { host < HOSTS }
    ensures { result ≡ address host }
{
    [2, 0, 0, 0, 0, host as u8]
}

// The source that a number draws.
fn source(number: u64) -> [u8; 6]
    ensures { result ≡ source_in number }
{
    host_address(number / 65536 % HOSTS)
}

// The destination that it draws.
fn destination(number: u64) -> [u8; 6]
    ensures { result ≡ destination_in number }
{
    host_address(number / 65536 / HOSTS % HOSTS)
}

// Both, the source first.
fn pair(number: u64) -> [u8; 12]
    ensures { result ≡ source_in number ++ destination_in number }
{
    let [a, b, c, d, e, f] = source(number);
    let [g, h, i, j, k, l] = destination(number);
    [a, b, c, d, e, f, g, h, i, j, k, l]
}

/// A table with room for so many hosts, after the references of so many frames. NoMemory where there is none for it.
pub fn load_hosts(alloc: Global, capacity: u32, frames: u32) -> Result<Loaded<[u8; 6]>, NoMemory>
    requires some { 1 ≤ capacity }
    requires most { capacity ≤ MOST_ROWS }
    requires moments { FIRST_MOMENT + frames < 2 ^ 32 }
    ensures { IfOk result (λ hosts. IsHeld bytes_eq capacity (host_references frames) hosts) }
{
    let mut hosts = Loaded::new(alloc, capacity)?;
    let mut number = START;
    for frame in 0..frames {
        number = next_number(number);
        let stamp = 2 * u64::from(frame);
        let tick = (FIRST_MOMENT + frame + 1) / 10;
        hosts.refer(source(number), stamp, tick);
        hosts.refer(destination(number), stamp + 1, tick);
    }
    Ok(hosts)
}

/// The same for so many pairs of hosts.
pub fn load_pairs(alloc: Global, capacity: u32, frames: u32) -> Result<Loaded<[u8; 12]>, NoMemory>
    requires some { 1 ≤ capacity }
    requires most { capacity ≤ MOST_ROWS }
    requires moments { FIRST_MOMENT + frames < 2 ^ 32 }
    ensures { IfOk result (λ pairs. IsHeld bytes_eq capacity (pair_references frames) pairs) }
{
    let mut pairs = Loaded::new(alloc, capacity)?;
    let mut number = START;
    for frame in 0..frames {
        number = next_number(number);
        let tick = (FIRST_MOMENT + frame + 1) / 10;
        pairs.refer(pair(number), u64::from(frame), tick);
    }
    Ok(pairs)
}
