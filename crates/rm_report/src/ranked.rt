// Hosts in order of their rates.
ghost use Rattle.std.specs.Prelude.{◌≡◌, ◌+◌, ◌<◌, ◌≤◌, [], ◌∷◌, ◌++◌, map, filter, option_map, vec_len, vec_capacity};
ghost use Rattle.std.specs.List.Sorted.{IsPermutation, IsSorted};
ghost use Rattle.rm_keyed.specs.declared.keyed.TheConstants.{MOST_ROWS};
ghost use Rattle.rm_rows.specs.Table.{key_at, keys_of};
ghost use Rattle.rm_report.specs.Copies.{AreRising};
ghost use Rattle.rm_report.specs.Ranking.{AreFirst, gains_something, in_order, rated};

use crate::copied::{Copied, copied_count, copy_of};
use crate::rate_base::RateBase;
use rm_hosts::HostCounts;
use rm_rows::Rows;
use std::cmp::Reverse;

/// A host and its rate, in the order of a report: the greater rate stands first, and of equal ones the lesser address.
#[derive(Clone, Copy, Debug, PartialEq, Eq, PartialOrd, Ord)]
pub struct Ranked {
    /// The rate.
    pub rate: Reverse<u64>,
    /// The host's address.
    pub address: [u8; 6],
}

/// Puts each host that gained something since copies were taken in place of the hosts that there are, with what it gained.
pub(crate) fn rate_hosts(
    ranked: &mut Vec<Ranked>,
    copies: &[Copied],
    hosts: &Rows<[u8; 6], HostCounts>,
    base: RateBase,
)
    requires most { hosts.now.room ≡ MOST_ROWS }
    requires room { MOST_ROWS ≤ vec_capacity ranked.old }
    ensures rates { AreRising copies.now → ranked.new.items ≡ filter gains_something (map (rated base copies.now hosts.now.rows) (keys_of hosts.now.rows)) }
    ensures room { vec_capacity ranked.new ≡ vec_capacity ranked.old }
    ensures len { vec_len ranked.new ≤ MOST_ROWS }
{
    ranked.clear();
    for place in 0..hosts.len() {
        if let Some(host) = rated_at(copies, hosts, place, base) {
            add(ranked, host);
        }
    }
}

// Adds a host, if it gained something.
fn add(ranked: &mut Vec<Ranked>, host: Ranked)
    requires { vec_len ranked.old < vec_capacity ranked.old }
    ensures ranked { ranked.new.items ≡ ranked.old.items ++ filter gains_something (host ∷ []) }
    ensures room { vec_capacity ranked.new ≡ vec_capacity ranked.old }
    ensures len { vec_len ranked.new ≤ vec_len ranked.old + 1 }
{
    if host.rate.0 > 0 {
        ranked.push_reserved(host);
    }
}

// The host that entered after so many others, with what it gained since copies were taken.
fn rated_at(
    copies: &[Copied],
    hosts: &Rows<[u8; 6], HostCounts>,
    place: usize,
    base: RateBase,
) -> Option<Ranked>
    requires { place < MOST_ROWS }
    ensures { AreRising copies.now → result ≡ option_map (rated base copies.now hosts.now.rows) (key_at (place + 1) hosts.now.rows) }
{
    let address = hosts.made(place + 1)?;
    let now = copy_of(hosts, address, base);
    let gained = now.count.wrapping_sub(copied_count(copies, now.entry));
    Some(Ranked {
        rate: Reverse(gained),
        address: *address,
    })
}

/// Puts hosts in order, and leaves so many of them at most.
pub(crate) fn rank(ranked: &mut Vec<Ranked>, most: usize)
    ensures first { AreFirst most ranked.old.items ranked.new.items }
    ensures room { vec_capacity ranked.new ≡ vec_capacity ranked.old }
    ensures len { vec_len ranked.new ≤ vec_len ranked.old }
{
    put_in_order(ranked);
    ranked.truncate(most);
}

// Puts hosts in order.
fn put_in_order(ranked: &mut Vec<Ranked>)
    ensures moved { IsPermutation ranked.old.items ranked.new.items }
    ensures order { IsSorted in_order ranked.new.items }
    ensures room { vec_capacity ranked.new ≡ vec_capacity ranked.old }
    ensures len { vec_len ranked.new ≡ vec_len ranked.old }
{
    ranked.as_mut_slice().sort_unstable();
}
