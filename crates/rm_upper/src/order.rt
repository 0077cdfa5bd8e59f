// Walks of network and application rows in an order of keys.

ghost use Rattle.std.specs.Prelude.{◌<◌, ◌^◌, ◌↔◌, IsTrue, IfSome, option_copied};
ghost use Rattle.std.specs.Ordering.{nat_cmp};
ghost use Rattle.rm_rows.specs.Table.{IsNextKey, keys_of};
ghost use Rattle.rm_layers.specs.Marks.{IsLeast, StandsAt, IsAboveName, IsAboveApplication, IsNextInstance, pair_cmp};
ghost use Rattle.rm_upper.specs.Standing.{Layered};
ghost use Rattle.rm_upper.specs.Walk.{ShowsNetwork, ShowsApplication};

use crate::counts::LayerCounts;
use rm_evicting::Key;

/// The network rows of a table in an order of their keys, or of other keys that stand for these.
pub trait RowOrder {
    /// The keys, in this order.
    type Key: Key;

    /// What the rows count.
    type Counts: LayerCounts;

    /// The rows by these keys.
    ghost seen: { Self → Layered Self.Key Self.Counts Self.Counts.Application };

    /// The least key above another, or of all where there is no other. None where there is none.
    fn after(&self, key: Option<&Self::Key>) -> Option<Self::Key>
        ensures { IsNextKey Self.Key.cmp (keys_of (seen self.now).table.rows) (option_copied key.entry) result };

    /// Whether the row of a key stands at a mark: the tick of its last contribution isn't below it.
    fn stands_at(&self, key: &Self::Key, mark: u64) -> bool
        ensures stands { IsTrue result ↔ StandsAt (ShowsNetwork Self.Key.eq (seen self.now)) mark key.now }
        ensures reached { IsTrue result → mark < 2 ^ 32 };

    /// The least protocol above another of which the row of a key has an application row that stands at a mark. None where there is none.
    fn next_in(&self, key: &Self::Key, mark: u64, from: Option<u32>) -> Option<u32>
        ensures least { IsLeast nat_cmp (λ p. StandsAt (ShowsApplication Self.Key.eq (seen self.now)) mark (key.now, p)) (IsAboveName nat_cmp from) result }
        ensures reached { IfSome result (λ p. mark < 2 ^ 32) };
}

// The least network row above a key, or of all, among those that stand at a mark.
fn next_network<O: RowOrder>(order: &O, mark: u64, from: Option<O::Key>) -> Option<O::Key>
    ensures least { IsLeast O.Key.cmp (StandsAt (ShowsNetwork O.Key.eq (O.seen order.now)) mark) (IsAboveName O.Key.cmp from) result }
    ensures reached { IfSome result (λ key. mark < 2 ^ 32) }
{
    let mut above = from;
    loop {
        let Some(key) = order.after(above.as_ref()) else {
            return None;
        };
        if order.stands_at(&key, mark) {
            return Some(key);
        }
        above = Some(key);
    }
}

/// The next instance of a network row, by mark and key, above a mark and maybe a key. Each row stands at each mark up to the tick of its
/// last contribution (RFC 2021, TimeFilter). None where there is none.
pub fn network_after<O: RowOrder>(
    order: &O,
    mark: u32,
    from: Option<O::Key>,
) -> Option<(u32, O::Key)>
    ensures { IsNextInstance O.Key.cmp (ShowsNetwork O.Key.eq (O.seen order.now)) mark (IsAboveName O.Key.cmp from) result }
{
    if let Some(found) = next_network(order, mark as u64, from) {
        return Some((mark, found));
    }
    match next_network(order, mark as u64 + 1, None) {
        Some(found) => Some((mark + 1, found)),
        None => None,
    }
}

// The least application row above a key and maybe a protocol, among those that stand at a mark.
fn next_application<O: RowOrder>(
    order: &O,
    mark: u64,
    from: Option<(O::Key, Option<u32>)>,
) -> Option<(O::Key, u32)>
    ensures least { IsLeast (pair_cmp O.Key.cmp nat_cmp) (StandsAt (ShowsApplication O.Key.eq (O.seen order.now)) mark) (IsAboveApplication O.Key.cmp from) result }
    ensures reached { IfSome result (λ x. mark < 2 ^ 32) }
{
    let (mut key, mut protocol) = match from {
        Some(from) => from,
        None => {
            let nothing: Option<O::Key> = None;
            match order.after(nothing.as_ref()) {
                Some(first) => (first, None),
                None => return None,
            }
        }
    };
    loop {
        if let Some(found) = order.next_in(&key, mark, protocol) {
            return Some((key, found));
        }
        match order.after(Some(&key)) {
            Some(next) => {
                key = next;
                protocol = None;
            }
            None => return None,
        }
    }
}

/// The next instance of an application row, by mark, key and protocol, above a mark, maybe a key and maybe a protocol. It skips network
/// rows that have no application row at the mark. None where there is none.
pub fn application_after<O: RowOrder>(
    order: &O,
    mark: u32,
    from: Option<(O::Key, Option<u32>)>,
) -> Option<(u32, (O::Key, u32))>
    ensures { IsNextInstance (pair_cmp O.Key.cmp nat_cmp) (ShowsApplication O.Key.eq (O.seen order.now)) mark (IsAboveApplication O.Key.cmp from) result }
{
    if let Some(found) = next_application(order, mark as u64, from) {
        return Some((mark, found));
    }
    match next_application(order, mark as u64 + 1, None) {
        Some(found) => Some((mark + 1, found)),
        None => None,
    }
}
