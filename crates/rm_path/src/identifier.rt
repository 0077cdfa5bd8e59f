// Protocols by what carries them.
ghost use Rattle.std.specs.Prelude.{◌≡◌};

/// A protocol, by what carries it, and its number there (RFC 2074).
#[derive(Clone, Copy, Debug, PartialEq, Eq)]
pub enum ProtocolIdentifier {
    /// Ethernet itself, as ether2 names it.
    Ether2,
    /// What Ethernet carries, by its type.
    Ether(u16),
    /// What IP carries, by its protocol.
    Ip(u8),
    /// What TCP carries, by a port.
    Tcp(u16),
    /// What UDP carries, by a port.
    Udp(u16),
}

/// The type of IP (RFC 894).
pub(crate) const IP: u16 = 0x0800;

impl ProtocolIdentifier {
    ghost use Rattle.rm_path.specs.Identifier.{number_of, IsInRange};

    /// The number by which protocols are ordered as the names of their rows are (RFC 2021, protocolDirTable). It has 32 bits, and
    /// isn't 0.
    pub fn number(self) -> u32
        ensures value { result ≡ number_of self }
        ensures in_range { IsInRange self }
    {
        match self {
            ProtocolIdentifier::Ether2 => 1,
            ProtocolIdentifier::Ether(kind) => 0x1_0000 + u32::from(kind),
            ProtocolIdentifier::Ip(protocol) => 0x2_0000 + u32::from(protocol),
            ProtocolIdentifier::Tcp(port) => 0x3_0000 + u32::from(port),
            ProtocolIdentifier::Udp(port) => 0x4_0000 + u32::from(port),
        }
    }
}
