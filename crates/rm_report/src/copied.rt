// Copies of what hosts have counted.
ghost use Rattle.std.specs.Prelude.{◌≡◌, ◌+◌, ◌<◌, ◌≤◌, map, option_map, vec_capacity};
ghost use Rattle.rm_keyed.specs.declared.keyed.TheConstants.{MOST_ROWS};
ghost use Rattle.rm_rows.specs.Table.{key_at, keys_of};
ghost use Rattle.rm_report.specs.Copies.{AreRising, copied_count, copy_in};

use crate::rate_base::RateBase;
use rm_hosts::HostCounts;
use rm_rows::Rows;

/// What a host had counted when a report began, by the stamp of the reference by which it had entered.
#[derive(Clone, Copy, Debug)]
pub struct Copied {
    /// The stamp.
    pub entry: u64,
    /// The counter that the report compares.
    pub count: u64,
}

/// Puts a copy of a counter of each host in place of the copies that there are, in the hosts' order of entry.
pub(crate) fn copy_hosts(
    copies: &mut Vec<Copied>,
    hosts: &Rows<[u8; 6], HostCounts>,
    base: RateBase,
)
    requires most { hosts.now.room ≡ MOST_ROWS }
    requires room { MOST_ROWS ≤ vec_capacity copies.old }
    ensures copies { copies.new.items ≡ map (copy_in base hosts.now.rows) (keys_of hosts.now.rows) }
    ensures room { vec_capacity copies.new ≡ vec_capacity copies.old }
{
    copies.clear();
    for place in 0..hosts.len() {
        if let Some(copied) = copied_at(hosts, place, base) {
            copies.push_reserved(copied);
        }
    }
}

// The copy of the host that entered after so many others.
fn copied_at(hosts: &Rows<[u8; 6], HostCounts>, place: usize, base: RateBase) -> Option<Copied>
    requires { place < MOST_ROWS }
    ensures { result ≡ option_map (copy_in base hosts.now.rows) (key_at (place + 1) hosts.now.rows) }
{
    let address = hosts.made(place + 1)?;
    Some(copy_of(hosts, address, base))
}

/// The copy of a host.
pub(crate) fn copy_of(
    hosts: &Rows<[u8; 6], HostCounts>,
    address: &[u8; 6],
    base: RateBase,
) -> Copied
    ensures { result ≡ copy_in base hosts.now.rows address.now }
{
    let entry = hosts.entry(address).unwrap_or(0);
    let count = match hosts.get(address) {
        Some(counts) => base.count(counts),
        None => 0,
    };
    Copied { entry, count }
}

/// What the host that entered with a stamp had counted, by the copies, which stand in the order of entry; 0 where there is no copy of it.
pub(crate) fn copied_count(copies: &[Copied], entry: u64) -> u64
    ensures { AreRising copies.now → result ≡ copied_count copies.now entry }
{
    match copies.binary_search_by_key(&entry, |copied| copied.entry) {
        Ok(place) => copies[place].count,
        Err(_) => 0,
    }
}
