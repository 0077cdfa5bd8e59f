// The protocols above ip that are on, in the slots that they have in the directory.

ghost use Rattle.std.specs.Prelude.{◌≡◌};
ghost use Rattle.rm_layer_slots.specs.On.{counts, local_on, slots_on};

use rm_path::{Protocol, Protocols};

/// Tables of hosts, or of pairs of hosts.
#[derive(Clone, Copy, PartialEq, Eq, Debug)]
pub enum TableKind {
    Hosts,
    Matrices,
}

impl TableKind {
    /// Whether these tables count what a protocol carries (RFC 2021, protocolDirHostConfig and protocolDirMatrixConfig).
    pub fn counts(self, protocol: &Protocol) -> bool
        ensures { result ≡ counts self protocol.now }
    {
        match self {
            TableKind::Hosts => protocol.host,
            TableKind::Matrices => protocol.matrix,
        }
    }
}

// The local index of a protocol above ip that is on.
fn local_on(kind: TableKind, protocol: Option<Protocol>) -> Option<u32>
    ensures { result ≡ local_on kind protocol }
{
    match protocol {
        Some(protocol) => {
            if protocol.is_above_ip() && kind.counts(&protocol) {
                Some(protocol.local)
            } else {
                None
            }
        }
        None => None,
    }
}

/// In each slot the local index of the protocol above ip that has it, where tables of that kind count it.
pub fn slots_on(kind: TableKind, protocols: &Protocols) -> [Option<u32>; 32]
    ensures { result ≡ slots_on kind protocols.now }
{
    let mut on = [None; 32];
    for slot in 0..32u8 {
        on[slot as usize] = local_on(kind, protocols.get(slot));
    }
    on
}
