// What every message has (RFC 1901, section 3; RFC 1905, section 3).

/// The tag of a SEQUENCE: of the message, of the list of bindings and of a binding.
pub(crate) const SEQUENCE: u8 = 0x30;

/// The version of SNMPv2c.
pub(crate) const VERSION: i32 = 1;
