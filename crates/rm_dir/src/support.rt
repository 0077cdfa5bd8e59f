// Whether tables count a protocol.
ghost use Rattle.rm_dir.specs.Support.{supports};

use rm_columns::Numbered;

/// Whether the tables of hosts, or of matrices, count a protocol (RFC 2021, protocolDirHostConfig and protocolDirMatrixConfig).
#[derive(Clone, Copy, Debug, PartialEq, Eq)]
pub enum Support {
    /// They can't: its addresses aren't those of IP.
    NotSupported,
    /// They don't.
    SupportedOff,
    /// They do.
    SupportedOn,
}

impl Numbered for Support {
    ghost numbering = { supports };

    fn variants() -> &'static [Self] {
        &[
            Support::SupportedOn,
            Support::NotSupported,
            Support::SupportedOff,
        ]
    }

    fn number(self) -> i32 {
        match self {
            Support::NotSupported => 1,
            Support::SupportedOff => 2,
            Support::SupportedOn => 3,
        }
    }
}
