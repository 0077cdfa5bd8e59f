// What is on for tables of hosts, or of pairs of hosts, by the directory.
ghost use Rattle.std.specs.Prelude.{◌≡◌};
ghost use Rattle.rm_model.specs.Journal.{Journal};
ghost use Rattle.rm_dir.specs.Group.{Stands as IsDirectory};
ghost use Rattle.rm_layer_slots.specs.On.{is_ip_on};
ghost use Rattle.rm_layer_tables.specs.Standing.{AreOn};

use rm_dir::Directory;
use rm_layer_slots::{TableKind, slots_on};
use rm_path::ProtocolIdentifier;

/// The type of IP (RFC 894).
const IP: u16 = 0x0800;

/// Whether ip is on for tables of a kind (RFC 2021, protocolDirHostConfig and protocolDirMatrixConfig).
pub(crate) fn is_ip_on(kind: TableKind, directory: &Directory) -> bool
    ensures { (journal : Journal) → IsDirectory directory.now journal → result ≡ is_ip_on kind journal }
{
    match directory.protocol(ProtocolIdentifier::Ether(IP)) {
        Some(ip) => kind.counts(&ip),
        None => false,
    }
}

/// The local indexes of the protocols above ip that are on for tables of a kind, each in a slot.
pub(crate) fn protocols_on(kind: TableKind, directory: &Directory) -> [Option<u32>; 32]
    ensures { (journal : Journal) → IsDirectory directory.now journal → AreOn kind result journal }
{
    let protocols = directory.protocols();
    protocols.are_apart();
    slots_on(kind, protocols)
}
