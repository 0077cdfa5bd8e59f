// The local indexes of the protocols on the path of a frame.
ghost use Rattle.std.specs.Prelude.{◌≡◌, ◌<◌, length, map};
ghost use Rattle.rm_model.specs.Journal.{Journal};
ghost use Rattle.rm_dir.specs.DirectoryIndex.{index_with};
ghost use Rattle.rm_dir.specs.Group.{Stands as IsDirectory};
ghost use Rattle.rm_dir.specs.LocalIndexes.{local_index};
ghost use Rattle.rm_dir.specs.Paths.{AreActiveAfter, path_after};
ghost use Rattle.rm_dist.specs.Slots.{local_in};

use arrayvec::ArrayVec;
use rm_dir::Directory;
use rm_path::Protocols;
use rm_proto::Facts;

/// The local indexes of the protocols on the path of a frame with these facts, from that of ether2 upwards.
pub(crate) fn locals_on_path(directory: &Directory, facts: &Facts) -> ArrayVec<u32, 4>
    ensures locals { (journal : Journal) → IsDirectory directory.now journal
        → result.items ≡ map (λ protocol. local_index journal (index_with protocol)) (path_after journal facts.now) }
    ensures slots { (journal : Journal) → IsDirectory directory.now journal → AreActiveAfter journal directory.now.protocols }
    ensures count { 0 < length result.items → length directory.now.protocols ≡ 32 }
{
    let protocols = directory.protocols();
    let mut locals = ArrayVec::new();
    for slot in directory.path(facts).as_slice() {
        locals.push(local_in(protocols, *slot));
    }
    locals
}

// The local index of the protocol in a slot, 0 where there is none.
fn local_in(protocols: &Protocols, slot: u8) -> u32
    requires { slot < 32 }
    ensures local { result ≡ local_in protocols.now slot }
    ensures count { length protocols.now ≡ 32 }
{
    match protocols.get(slot) {
        Some(protocol) => protocol.local,
        None => 0,
    }
}
