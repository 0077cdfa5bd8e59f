// The values of variables.
use crate::oid::Oid;

/// The value in a variable binding (RFC 1905, section 3). It lends its octets.
#[derive(Drop)]
pub enum Value<'a> {
    /// INTEGER
    Int(i32),
    /// OCTET STRING
    Octets(&'a [u8]),
    /// NULL, the value of a variable that is asked for
    Null,
    /// OBJECT IDENTIFIER
    Name(Oid),
    /// IpAddress, the octets in network order
    Ip([u8; 4]),
    /// Counter32
    Counter(u32),
    /// Gauge32
    Gauge(u32),
    /// TimeTicks, in hundredths of a second
    Ticks(u32),
    /// Opaque
    Opaque(&'a [u8]),
    /// Counter64
    Big(u64),
    /// noSuchObject
    NoObject,
    /// noSuchInstance
    NoInstance,
    /// endOfMibView
    EndOfView,
}
