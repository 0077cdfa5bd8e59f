// The path of a frame.
ghost use Rattle.std.specs.Prelude.{◌≡◌, ◌<◌, [], ◌∷◌, All, map, Some};
ghost use Rattle.rm_path.specs.Layers.{protocol_layer, port_layer, path_of};
ghost use Rattle.rm_path.specs.Slots.{identifier_in, is_active, IsSlotOfFirst};

use crate::identifier::{IP, ProtocolIdentifier};
use crate::protocols::Protocols;
use arrayvec::ArrayVec;
use rm_proto::Facts;

/// The path of a frame: the slots of its protocols, from ether2 upwards.
pub type Path = ArrayVec<u8, 4>;

/// The protocols whose ports are told (RFC 1700).
const TCP: u8 = 6;

const UDP: u8 = 17;

impl Protocols {
    /// The path of a frame with these facts: ether2 where it has a type, the protocol of that type, what IP carries, and the port of
    /// the receiver or else of the sender, each where it is active; the first layer of which none is ends it.
    pub fn path(&self, facts: &Facts) -> Path
        ensures protocols { map (identifier_in self.now) result.items ≡ map Some (path_of (is_active self.now) facts.now) }
        ensures slots { All (λ slot. slot < 32) result.items }
    {
        let mut path = Path::new();
        let Some(kind) = facts.ether else {
            return path;
        };
        let Some(base) = self.slot_of(ProtocolIdentifier::Ether2) else {
            return path;
        };
        path.push(base);
        let Some(carried) = self.slot_of(ProtocolIdentifier::Ether(kind)) else {
            return path;
        };
        path.push(carried);
        let Some(protocol) = self.slot_over_ip(facts) else {
            return path;
        };
        path.push(protocol);
        if let Some(port) = self.slot_by_port(facts) {
            path.push(port);
        }
        path
    }

    // The slot of what IP carries.
    fn slot_over_ip(&self, facts: &Facts) -> Option<u8>
        ensures { IsSlotOfFirst self.now (protocol_layer facts.now.ether facts.now.proto) result }
    {
        match (facts.ether, facts.proto) {
            (Some(IP), Some(protocol)) => self.slot_of(ProtocolIdentifier::Ip(protocol)),
            _ => None,
        }
    }

    // The slot of what TCP or UDP carries.
    fn slot_by_port(&self, facts: &Facts) -> Option<u8>
        ensures { IsSlotOfFirst self.now (port_layer facts.now.proto facts.now.ports) result }
    {
        let ports = facts.ports?;
        match facts.proto? {
            TCP => self.slot_of_either(
                ProtocolIdentifier::Tcp(ports.dest),
                ProtocolIdentifier::Tcp(ports.source),
            ),
            UDP => self.slot_of_either(
                ProtocolIdentifier::Udp(ports.dest),
                ProtocolIdentifier::Udp(ports.source),
            ),
            _ => None,
        }
    }

    // The slot of the first of two protocols that is active.
    fn slot_of_either(&self, preferred: ProtocolIdentifier, other: ProtocolIdentifier) -> Option<u8>
        ensures { IsSlotOfFirst self.now (preferred ∷ other ∷ []) result }
    {
        match self.slot_of(preferred) {
            Some(slot) => Some(slot),
            None => self.slot_of(other),
        }
    }
}
