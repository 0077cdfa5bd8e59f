// The tags of values, one octet each.

// Universal types (X.690, 8).
pub(crate) const INTEGER: u8 = 0x02;

pub(crate) const OCTET_STRING: u8 = 0x04;

pub(crate) const NULL: u8 = 0x05;

pub(crate) const OBJECT_IDENTIFIER: u8 = 0x06;

// Application types (RFC 1902, section 2).
pub(crate) const IP_ADDRESS: u8 = 0x40;

pub(crate) const COUNTER32: u8 = 0x41;

pub(crate) const GAUGE32: u8 = 0x42;

pub(crate) const TIME_TICKS: u8 = 0x43;

pub(crate) const OPAQUE: u8 = 0x44;

pub(crate) const COUNTER64: u8 = 0x46;

// Exceptions (RFC 1905, section 3).
pub(crate) const NO_SUCH_OBJECT: u8 = 0x80;

pub(crate) const NO_SUCH_INSTANCE: u8 = 0x81;

pub(crate) const END_OF_MIB_VIEW: u8 = 0x82;
