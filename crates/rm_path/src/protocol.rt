// What is known of a protocol that is active.
ghost use Rattle.std.specs.Prelude.{◌≡◌};

use crate::identifier::{IP, ProtocolIdentifier};

/// A protocol of which the row in the directory is active (RFC 2021, protocolDirTable).
#[derive(Clone, Copy, Debug, PartialEq, Eq)]
pub struct Protocol {
    /// What it is.
    pub identifier: ProtocolIdentifier,
    /// Its protocolDirLocalIndex.
    pub local: u32,
    /// Whether the tables of hosts count it: its protocolDirHostConfig is supportedOn.
    pub host: bool,
    /// Whether the tables of matrices count it: its protocolDirMatrixConfig is supportedOn.
    pub matrix: bool,
}

impl Protocol {
    ghost use Rattle.rm_path.specs.Identifier.{is_ip, is_above_ip};

    /// Whether it is IP.
    pub fn is_ip(&self) -> bool
        ensures { result ≡ is_ip self.now.identifier }
    {
        match self.identifier {
            ProtocolIdentifier::Ether(kind) => kind == IP,
            _ => false,
        }
    }

    /// Whether IP carries it, also by what IP carries.
    pub fn is_above_ip(&self) -> bool
        ensures { result ≡ is_above_ip self.now.identifier }
    {
        match self.identifier {
            ProtocolIdentifier::Ip(_) | ProtocolIdentifier::Tcp(_) | ProtocolIdentifier::Udp(_) => {
                true
            }
            ProtocolIdentifier::Ether2 | ProtocolIdentifier::Ether(_) => false,
        }
    }
}
