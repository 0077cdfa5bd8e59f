// What the columns of a host show.
ghost use Rattle.std.specs.Prelude.{◌≡◌, ◌≤◌, unwrap_or};
ghost use Rattle.std.specs.Str.{bytes_eq};
ghost use Rattle.rm_rows.specs.Table.{order_of};
ghost use Rattle.rm_val.specs.Val.{val_of};
ghost use Rattle.rm_val.specs.Spellable.{HasSpelling};
ghost use Rattle.rm_keyed.specs.declared.keyed.TheConstants.{MOST_ROWS};
ghost use Rattle.rm_hosts.specs.Shown.{kept_value};

use crate::host_counts::HostCounts;
use crate::host_rows::HostRows;
use rm_keyed::{Keyed, MOST_ROWS};
use rm_sourced::counter_value;
use rm_val::Value;

/// The numbers of the columns of hostTable and of hostTimeTable (RFC 1757, section 5): the address, the order of entry, the control row, and
/// the counts.
pub(crate) const HOST_COLUMNS: &[u32] = &[1, 2, 3, 4, 5, 6, 7, 8, 9, 10];

/// What a column of a host of a row shows.
pub(crate) fn host_value<'a>(
    row: u32,
    rows: &HostRows,
    address: &'a [u8; 6],
    column: u32,
) -> Value<'a>
    requires { row ≤ 65535 }
    ensures value { val_of result ≡ kept_value row rows.now address.now column }
    ensures spelling { HasSpelling (val_of result) }
{
    let hosts = &rows.keyed;
    match column {
        1 => Value::Octets(address.as_slice()),
        2 => Value::Int(rank_of(hosts, address) as i32),
        3 => Value::Int(row as i32),
        _ => counter_value(hosts, address, column),
    }
}

// The rank of a host in the order of entry, 0 where there is no such host.
fn rank_of(hosts: &Keyed<[u8; 6], HostCounts>, address: &[u8; 6]) -> usize
    ensures value { result ≡ unwrap_or (order_of bytes_eq address.now hosts.now.rows.rows) 0 }
    ensures most { result ≤ MOST_ROWS }
{
    let hosts = hosts.rows();
    prove!(hosts.len() <= MOST_ROWS as usize);
    hosts.order(address).unwrap_or(0)
}
