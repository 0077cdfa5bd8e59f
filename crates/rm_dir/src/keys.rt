// The indexes of the rows of the directory, and what goes by them.
ghost use Rattle.std.specs.Prelude.{◌≡◌, ◌+◌, ◌*◌, ◌/◌, ◌%◌, ◌<◌, [], ◌∷◌, length, slice_index, nat_eq, Some, None, true, false, IfSome, IfNone};
ghost use Rattle.std.specs.Option.{option_map};
ghost use Rattle.rm_path.specs.Identifier.{number_of, identified};
ghost use Rattle.rm_dir.specs.DirectoryIndex.{index_with, may_have_row, row_protocol, protocol_of, directory_indexing, directory_number, is_directory_row, indexed};
ghost use Rattle.rm_dir.specs.ProtocolDir.{directory_rules, is_fixed_column};

use crate::built_in::{is_built_in, is_countable};
use rm_columns::RowKeys;
use rm_group::numbers_from;
use rm_path::ProtocolIdentifier;
use rm_val::Oid;

/// The least type of Ethernet; a lower number is a length (IEEE 802.3).
const LEAST_TYPE: u16 = 1536;

/// Where the numbers of the types of Ethernet begin, of the protocols of IP, of the ports of TCP and of those of UDP, and where the
/// last end.
const TYPES: u32 = 0x1_0000;

const PROTOCOLS: u32 = 0x2_0000;

const TCP_PORTS: u32 = 0x3_0000;

const UDP_PORTS: u32 = 0x4_0000;

const END: u32 = 0x5_0000;

/// The octets of an index: of the identifier of a protocol, in four octets for each layer, and of its parameters, both with their counts
/// (RFC 2074, section 3).
pub struct DirectoryKeys;

/// Whether a protocol can have a row in the directory.
pub(crate) fn may_have_row(protocol: ProtocolIdentifier) -> bool
    ensures { result ≡ may_have_row protocol }
{
    match protocol {
        ProtocolIdentifier::Ether2 => true,
        ProtocolIdentifier::Ether(kind) => kind >= LEAST_TYPE,
        ProtocolIdentifier::Ip(_) => true,
        ProtocolIdentifier::Tcp(port) | ProtocolIdentifier::Udp(port) => port != 0,
    }
}

/// The protocol whose row has a number. None where that is no row's.
pub(crate) fn row_protocol(number: u32) -> Option<ProtocolIdentifier>
    ensures { result ≡ row_protocol number }
{
    match numbered(number) {
        Some(protocol) if may_have_row(protocol) => Some(protocol),
        _ => None,
    }
}

// The protocol that has a number.
fn numbered(number: u32) -> Option<ProtocolIdentifier>
    ensures some { IfSome result (λ protocol. (identified number ≡ protocol) × (nat_eq (number_of protocol) number ≡ true)) }
    ensures none { IfNone result (is_directory_row number ≡ false) }
{
    match number {
        1 => Some(ProtocolIdentifier::Ether2),
        TYPES..PROTOCOLS => Some(ProtocolIdentifier::Ether((number - TYPES) as u16)),
        PROTOCOLS..TCP_PORTS => {
            Some(ProtocolIdentifier::Ip(u8::try_from(number - PROTOCOLS).ok()?))
        }
        TCP_PORTS..UDP_PORTS => Some(ProtocolIdentifier::Tcp((number - TCP_PORTS) as u16)),
        UDP_PORTS..END => Some(ProtocolIdentifier::Udp((number - UDP_PORTS) as u16)),
        _ => None,
    }
}

/// The index of a protocol's row.
pub(crate) fn index_with(protocol: ProtocolIdentifier) -> Oid
    ensures { result ≡ index_with protocol }
{
    match protocol {
        ProtocolIdentifier::Ether2 => Oid::from_slice(&[4, 0, 0, 0, 1, 1, 0]).unwrap(),
        ProtocolIdentifier::Ether(kind) => {
            let (high, low) = halves(kind);
            Oid::from_slice(&[8, 0, 0, 0, 1, 0, 0, high, low, 2, 0, 0]).unwrap()
        }
        ProtocolIdentifier::Ip(protocol) => {
            let protocol = u32::from(protocol);
            Oid::from_slice(&[12, 0, 0, 0, 1, 0, 0, 8, 0, 0, 0, 0, protocol, 3, 0, 0, 0]).unwrap()
        }
        ProtocolIdentifier::Tcp(port) => port_index(6, port),
        ProtocolIdentifier::Udp(port) => port_index(17, port),
    }
}

// The octets of a number.
fn halves(number: u16) -> (u32, u32)
    ensures high { result.0 ≡ number / 256 }
    ensures low { result.1 ≡ number % 256 }
{
    (u32::from(number / 256), u32::from(number % 256))
}

// The index of the row of a port, over a protocol of IP.
fn port_index(protocol: u32, port: u16) -> Oid
    ensures { result ≡ 16 ∷ 0 ∷ 0 ∷ 0 ∷ 1 ∷ 0 ∷ 0 ∷ 8 ∷ 0 ∷ 0 ∷ 0 ∷ 0 ∷ protocol ∷ 0 ∷ 0 ∷ (port / 256) ∷ (port % 256) ∷ 4 ∷ 0 ∷ 0 ∷ 0 ∷ 0 ∷ [] }
{
    let (high, low) = halves(port);
    Oid::from_slice(&[
        16, 0, 0, 0, 1, 0, 0, 8, 0, 0, 0, 0, protocol, 0, 0, high, low, 4, 0, 0, 0, 0,
    ])
    .unwrap()
}

/// The protocol whose row some numbers are the index of. None where they are no row's.
pub(crate) fn protocol_of(index: &Oid) -> Option<ProtocolIdentifier>
    ensures { result ≡ protocol_of index.now }
{
    let protocol = indexed(index)?;
    if may_have_row(protocol) && index_with(protocol).compare(index).is_eq() {
        Some(protocol)
    } else {
        None
    }
}

// The only protocol whose row some numbers can be the index of.
fn indexed(index: &Oid) -> Option<ProtocolIdentifier>
    ensures some { IfSome result (λ protocol. indexed index.now ≡ protocol) }
    ensures none { IfNone result (may_have_row (indexed index.now) ≡ false) }
{
    match index.len() {
        7 => Some(ProtocolIdentifier::Ether2),
        12 => Some(ProtocolIdentifier::Ether(short_at(index, 7)?)),
        17 => Some(ProtocolIdentifier::Ip(u8::try_from(index.at(12)).ok()?)),
        22 => {
            let port = short_at(index, 15)?;
            if index.at(12) == 6 {
                Some(ProtocolIdentifier::Tcp(port))
            } else {
                Some(ProtocolIdentifier::Udp(port))
            }
        }
        _ => None,
    }
}

// The number of two octets. None where it has more than sixteen bits.
fn short_at(index: &Oid, at: usize) -> Option<u16>
    requires { at + 1 < length index.now }
    ensures some { IfSome result (λ number. number ≡ slice_index index.now at * 256 + slice_index index.now (at + 1)) }
    ensures none { IfNone result (65535 < slice_index index.now at * 256 + slice_index index.now (at + 1)) }
{
    prove!(index.len() <= 128);
    let number = u64::from(index.at(at)) * 256 + u64::from(index.at(at + 1));
    u16::try_from(number).ok()
}

impl RowKeys for DirectoryKeys {
    ghost indexing = { directory_indexing };

    ghost rules = { directory_rules };

    fn index(number: u32) -> Oid {
        match row_protocol(number) {
            Some(protocol) => index_with(protocol),
            None => Oid::from_slice(&[number]).unwrap(),
        }
    }

    fn number(name: &Oid, from: usize) -> Option<u32> {
        let index = numbers_from(name, from);
        if index.len() == 1 {
            alone(index.at(0))
        } else {
            number_of(&index)
        }
    }

    fn is_row(number: u32) -> bool {
        row_protocol(number).is_some()
    }

    fn is_fixed(row: u32, column: u32) -> bool {
        match row_protocol(row) {
            Some(protocol) => is_fixed_column(protocol, column),
            None => false,
        }
    }

    fn stays(row: u32) -> bool {
        match row_protocol(row) {
            Some(protocol) => is_built_in(protocol),
            None => false,
        }
    }
}

// The number of the index that is one number, which is no row's.
fn alone(number: u32) -> Option<u32>
    ensures { result ≡ directory_number (number ∷ []) }
{
    match row_protocol(number) {
        Some(_) => None,
        None => Some(number),
    }
}

// Whether a column of the row of a protocol can never be set.
fn is_fixed_column(protocol: ProtocolIdentifier, column: u32) -> bool
    ensures { result ≡ is_fixed_column protocol column }
{
    match column {
        4 => is_built_in(protocol),
        7 | 8 => !is_countable(protocol),
        _ => false,
    }
}

// The number of the protocol whose row some numbers are the index of.
fn number_of(index: &Oid) -> Option<u32>
    ensures { result ≡ option_map number_of (protocol_of index.now) }
{
    match protocol_of(index) {
        Some(protocol) => Some(protocol.number()),
        None => None,
    }
}
