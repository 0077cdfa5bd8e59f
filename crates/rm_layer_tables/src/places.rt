// The rows of the network and application layer by their indexes.
ghost use Rattle.std.specs.Prelude.{◌≡◌, ◌+◌, ◌≤◌, ◌∷◌, drop, length, IfSome};
ghost use Rattle.rm_walk_places.specs.Within.{AreWithin};
ghost use Rattle.rm_layer_tables.specs.Indexes.{ip_bounds, network_place, application_place, network_index, application_index};
ghost use Rattle.rm_layer_tables.specs.Walks.{key_from, application_from};

use crate::address::IP_LOCAL;
use crate::layer_key::LayerKey;
use rm_val::Oid;
use rm_walk_places::Reached;

/// The index of a network row at a mark, behind the number of a control row.
pub(crate) fn network_index<K: LayerKey>(mark: u32, key: &K) -> Oid
    ensures value { result ≡ network_index K.form mark key.now }
    ensures long { length result ≡ 2 + K.form.count }
    ensures few { K.form.count ≤ 100 }
{
    let mut index = Oid::new();
    index.push(mark).unwrap();
    index.push(IP_LOCAL).unwrap();
    K::count();
    key.put(&mut index);
    index
}

/// The index of an application row at a mark, behind the number of a control row.
pub(crate) fn application_index<K: LayerKey>(mark: u32, key: &K, protocol: u32) -> Oid
    ensures value { result ≡ application_index K.form mark (key.now, protocol) }
    ensures long { length result ≡ 3 + K.form.count }
{
    let mut index = network_index(mark, key);
    index.push(protocol).unwrap();
    index
}

/// The mark and the key that an index names behind its first number, which is that of a control row. None where it can be no network row's.
pub(crate) fn network_place<K: LayerKey>(index: &Oid) -> Option<(u32, K)>
    ensures { result ≡ network_place K.form (drop 1 index.now) }
{
    if index.len() != K::count() + 3 || index.at(2) != IP_LOCAL {
        return None;
    }
    let key = K::at(index, 3)?;
    Some((index.at(1), key))
}

/// The mark, the key and the local index of the protocol that an index names behind its first number. None where it can be no application
/// row's.
pub(crate) fn application_place<K: LayerKey>(index: &Oid) -> Option<(u32, (K, u32))>
    ensures { result ≡ application_place K.form (drop 1 index.now) }
{
    if index.len() != K::count() + 4 || index.at(2) != IP_LOCAL {
        return None;
    }
    let key = K::at(index, 3)?;
    let protocol = index.at(K::count() + 3);
    Some((index.at(1), (key, protocol)))
}

/// The key above which a walk of network rows goes on, by what it has reached. None where it goes on from the first one on.
pub(crate) fn key_reached<K: LayerKey>(reached: &Option<Reached>) -> Option<K>
    requires { IfSome reached.now (λ one. AreWithin (ip_bounds ∷ K.form.bounds) one.numbers) }
    ensures { result ≡ key_from K.form reached.now }
{
    K::count();
    match reached {
        Some(reached) => K::at(&reached.numbers, 1),
        None => None,
    }
}

/// The key above which a walk of application rows goes on, and maybe the protocol of it. None where it goes on from the first one on.
pub(crate) fn application_reached<K: LayerKey>(
    reached: &Option<Reached>,
) -> Option<(K, Option<u32>)>
    requires { IfSome reached.now (λ one. AreWithin (ip_bounds ∷ K.form.bounds) one.numbers) }
    ensures { result ≡ application_from K.form reached.now }
{
    K::count();
    match reached {
        Some(reached) => {
            let key = K::at(&reached.numbers, 1)?;
            Some((key, reached.protocol))
        }
        None => None,
    }
}
