// The rows that the directory has from the beginning.
ghost use Rattle.std.specs.Prelude.{◌≡◌, find, map, length, ◌+◌, ◌<◌, ◌^◌};
ghost use Rattle.std.specs.List.{position_from};
ghost use Rattle.std.specs.Option.{option_map, option_copied};
ghost use Rattle.rm_path.specs.Identifier.{is_same};
ghost use Rattle.rm_dir.specs.BuiltIn.{built_in, built_in_rows, built_in_local, is_built_in, is_countable, type_bits};
ghost use Rattle.rm_dir.specs.BuiltInRows.{row_of};

use rm_path::ProtocolIdentifier;
use rm_path::ProtocolIdentifier::{Ether, Ether2, Ip, Tcp, Udp};

/// A protocol that has a row from the beginning, and its protocolDirDescr.
#[derive(Clone, Copy)]
pub(crate) struct BuiltIn {
    /// The protocol.
    pub protocol: ProtocolIdentifier,
    /// Its description.
    pub descr: &'static [u8],
}

/// The rows, in the order of their local indexes, from 1.
const ROWS: &[BuiltIn] = &[
    BuiltIn {
        protocol: Ether2,
        descr: b"ether2",
    },
    BuiltIn {
        protocol: Ether(0x0800),
        descr: b"ether2.ip",
    },
    BuiltIn {
        protocol: Ether(0x0806),
        descr: b"ether2.arp",
    },
    BuiltIn {
        protocol: Ip(1),
        descr: b"ether2.ip.icmp",
    },
    BuiltIn {
        protocol: Ip(6),
        descr: b"ether2.ip.tcp",
    },
    BuiltIn {
        protocol: Ip(17),
        descr: b"ether2.ip.udp",
    },
    BuiltIn {
        protocol: Tcp(21),
        descr: b"ether2.ip.tcp.ftp",
    },
    BuiltIn {
        protocol: Tcp(23),
        descr: b"ether2.ip.tcp.telnet",
    },
    BuiltIn {
        protocol: Tcp(25),
        descr: b"ether2.ip.tcp.smtp",
    },
    BuiltIn {
        protocol: Tcp(53),
        descr: b"ether2.ip.tcp.domain",
    },
    BuiltIn {
        protocol: Tcp(80),
        descr: b"ether2.ip.tcp.http",
    },
    BuiltIn {
        protocol: Tcp(110),
        descr: b"ether2.ip.tcp.pop3",
    },
    BuiltIn {
        protocol: Tcp(143),
        descr: b"ether2.ip.tcp.imap",
    },
    BuiltIn {
        protocol: Tcp(443),
        descr: b"ether2.ip.tcp.https",
    },
    BuiltIn {
        protocol: Udp(53),
        descr: b"ether2.ip.udp.domain",
    },
    BuiltIn {
        protocol: Udp(67),
        descr: b"ether2.ip.udp.bootps",
    },
    BuiltIn {
        protocol: Udp(69),
        descr: b"ether2.ip.udp.tftp",
    },
    BuiltIn {
        protocol: Udp(123),
        descr: b"ether2.ip.udp.ntp",
    },
    BuiltIn {
        protocol: Udp(161),
        descr: b"ether2.ip.udp.snmp",
    },
    BuiltIn {
        protocol: Udp(162),
        descr: b"ether2.ip.udp.snmptrap",
    },
];

/// The rows, in the order of their local indexes, from 1.
pub(crate) fn built_in_rows() -> &'static [BuiltIn]
    ensures rows { map row_of result.now ≡ built_in_rows }
    ensures count { length result.now ≡ 20 }
{
    ROWS
}

/// The row of a protocol among them.
pub(crate) fn built_in(protocol: ProtocolIdentifier) -> Option<&'static BuiltIn>
    ensures { option_map row_of (option_copied result) ≡ built_in protocol }
{
    found_in(built_in_rows(), protocol)
}

// The first of some rows that is a protocol's.
fn found_in(rows: &[BuiltIn], protocol: ProtocolIdentifier) -> Option<&BuiltIn>
    ensures { option_copied result ≡ find (λ row. is_same row.protocol protocol) rows.now }
{
    rows.iter().find(|row| is_same(row.protocol, protocol))
}

// Whether two protocols are the same.
fn is_same(one: ProtocolIdentifier, other: ProtocolIdentifier) -> bool
    ensures { result ≡ is_same one other }
{
    match (one, other) {
        (Ether2, Ether2) => true,
        (Ether(one), Ether(other)) => one == other,
        (Ip(one), Ip(other)) => one == other,
        (Tcp(one), Tcp(other)) => one == other,
        (Udp(one), Udp(other)) => one == other,
        _ => false,
    }
}

/// Whether a protocol has a row from the beginning.
pub(crate) fn is_built_in(protocol: ProtocolIdentifier) -> bool
    ensures { result ≡ is_built_in protocol }
{
    built_in(protocol).is_some()
}

/// Whether the tables of hosts and of matrices can count a protocol.
pub(crate) fn is_countable(protocol: ProtocolIdentifier) -> bool
    ensures { result ≡ is_countable protocol }
{
    match protocol {
        Ether2 => false,
        Ether(kind) => kind == 0x0800,
        Ip(_) | Tcp(_) | Udp(_) => true,
    }
}

/// The bits of protocolDirType.
pub(crate) fn type_bits(protocol: ProtocolIdentifier) -> u8
    ensures { result ≡ type_bits protocol }
{
    match protocol {
        Ether2 | Ip(6) | Ip(17) => 0x80,
        Ether(0x0800) => 0xc0,
        _ => 0x00,
    }
}

/// The local index of a protocol that has a row from the beginning, 0 for any other.
pub(crate) fn built_in_local(protocol: ProtocolIdentifier) -> u32
    ensures { result ≡ built_in_local protocol }
{
    match place_from(built_in_rows(), 1, protocol) {
        Some(place) => place,
        None => 0,
    }
}

// The place of the first of some rows that is a protocol's, where the first of all has that place.
fn place_from(rows: &[BuiltIn], first: u32, protocol: ProtocolIdentifier) -> Option<u32>
    requires { first + length rows.now < 2 ^ 32 }
    ensures { result ≡ position_from (λ row. is_same row.protocol protocol) first (map row_of rows.now) }
{
    let (row, rest) = rows.split_first()?;
    if is_same(row.protocol, protocol) {
        Some(first)
    } else {
        place_from(rest, first + 1, protocol)
    }
}
