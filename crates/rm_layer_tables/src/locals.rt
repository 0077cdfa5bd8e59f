// The protocols above ip on the path of a frame.
ghost use Rattle.std.specs.Prelude.{◌≡◌, ◌<◌};
ghost use Rattle.rm_model.specs.Journal.{Journal};
ghost use Rattle.rm_path.specs.Slots.{protocol_in};
ghost use Rattle.rm_dir.specs.Group.{Stands as IsDirectory};
ghost use Rattle.rm_layer_tables.specs.Layer.{locals_above_ip};
ghost use Rattle.rm_layer_tables.specs.Paths.{local_above};

use arrayvec::ArrayVec;
use rm_dir::Directory;
use rm_path::Protocols;
use rm_proto::Facts;

/// The local indexes of the protocols above ip on the path of a frame with these facts, the lowest first.
pub fn locals_above_ip(directory: &Directory, facts: &Facts) -> ArrayVec<u32, 4>
    ensures { (journal : Journal) → IsDirectory directory.now journal → result.items ≡ locals_above_ip journal facts.now }
{
    let protocols = directory.protocols();
    let mut locals = ArrayVec::new();
    for slot in directory.path(facts).as_slice() {
        if let Some(local) = local_above(protocols, *slot) {
            locals.push(local);
        }
    }
    locals
}

// The local index of the protocol in a slot, where that is above ip.
fn local_above(protocols: &Protocols, slot: u8) -> Option<u32>
    requires { slot < 32 }
    ensures { result ≡ local_above (protocol_in protocols.now slot) }
{
    let protocol = protocols.get(slot)?;
    if protocol.is_above_ip() {
        Some(protocol.local)
    } else {
        None
    }
}
