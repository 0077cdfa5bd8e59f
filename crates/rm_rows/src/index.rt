// The nodes of the rows, and their index by key.

ghost use Rattle.std.specs.Prelude.{◌≡◌, ◌+◌, ◌<◌, ◌≤◌, List, [], ◌∷◌, ◌++◌, length, insert, remove, find as search, All, IfOk, IfErr, IfSome, IfNone, Some, None, slice_get, option_map, option_copied, vec_len, vec_capacity};
ghost use Rattle.std.specs.VecDeque.{deque_len, deque_capacity};
ghost use denote.RawPtr.{Ptr};
ghost use Rattle.rm_evicting.specs.declared.Row.{Row as RowOf};
ghost use Rattle.rm_evicting.specs.Row.{renewed, touched, is_oldest, without_oldest, blank_row};
ghost use Rattle.rm_recency.specs.Threads.{row_at};
ghost use Rattle.rm_rows.specs.Stored.{In};
ghost use Rattle.rm_rows.specs.Table.{key_of, keys_of, row_of, touch_answer, AreAfter};
ghost use Rattle.rm_rows.specs.Index.{IsIndex, HasKey, IsGap, Kept, Loose, Fits, MayRenew, HaveRoom, PutOut, Holds, rows_in, place_without};

use crate::ranks::take_entered;
use crate::touch::Touch;
use rm_evicting::{Blank, Key, Row};
use rm_recency::{Node, RecencyList};
use std::cmp::Ordering;
use std::collections::VecDeque;

/// The place of a key in the index, or the place before which it belongs.
pub(crate) fn find<K: Key, V>(
    list: &RecencyList<K, V>,
    index: &[*mut Node<K, V>],
    key: &K,
) -> Result<usize, usize>
    requires { IsIndex K.cmp list.now index.now }
    ensures found { IfOk result (λ i. (p : Ptr) × (slice_get index.now i ≡ Some p) × HasKey K.cmp list.now p key.now) }
    ensures absent { IfErr result (λ i. IsGap K.cmp list.now index.now key.now i) }
{
    let mut low = 0;
    let mut high = index.len();
    while low < high {
        let middle = low + (high - low) / 2;
        match list.row(index[middle]).key.compare(key) {
            Ordering::Less => low = middle + 1,
            Ordering::Equal => return Ok(middle),
            Ordering::Greater => high = middle,
        }
    }
    Err(low)
}

// The node of the last reference, where its row has that key.
fn newest_of<K: Key, V>(list: &RecencyList<K, V>, key: &K) -> Option<*mut Node<K, V>>
    requires { (es : List Ptr) × (xs : List Ptr) × Kept K.cmp list.now es xs }
    ensures { (es : List Ptr) (xs : List Ptr) → Kept K.cmp list.now es xs → IfSome result (λ p. In p xs × HasKey K.cmp list.now p key.now) }
{
    match list.newest() {
        Some(ptr) if list.row(ptr).key == *key => Some(ptr),
        _ => None,
    }
}

// The node of a key, by the index.
fn indexed_node<K: Key, V>(
    list: &RecencyList<K, V>,
    index: &Vec<*mut Node<K, V>>,
    key: &K,
) -> Option<*mut Node<K, V>>
    requires { (es : List Ptr) × Kept K.cmp list.now es index.now.items }
    ensures some { IfSome result (λ p. In p index.now.items × HasKey K.cmp list.now p key.now) }
    ensures none { IfNone result ((es : List Ptr) → Kept K.cmp list.now es index.now.items → row_of K.eq key.now (rows_in list.now es) ≡ None) }
{
    match find(list, index, key) {
        Ok(place) => Some(index[place]),
        Err(_) => None,
    }
}

/// The node of a key. The last reference is looked at first, since it is often its key that is asked for next.
pub(crate) fn node_of<K: Key, V>(
    list: &RecencyList<K, V>,
    index: &Vec<*mut Node<K, V>>,
    key: &K,
) -> Option<*mut Node<K, V>>
    requires { (es : List Ptr) × Kept K.cmp list.now es index.now.items }
    ensures some { IfSome result (λ p. In p index.now.items × HasKey K.cmp list.now p key.now) }
    ensures none { IfNone result ((es : List Ptr) → Kept K.cmp list.now es index.now.items → row_of K.eq key.now (rows_in list.now es) ≡ None) }
{
    match newest_of(list, key) {
        Some(ptr) => Some(ptr),
        None => indexed_node(list, index, key),
    }
}

/// The row of a key.
pub(crate) fn seek<'a, K: Key, V>(
    list: &'a RecencyList<K, V>,
    index: &Vec<*mut Node<K, V>>,
    key: &K,
) -> Option<&'a Row<K, V>>
    requires { (es : List Ptr) × Kept K.cmp list.now es index.now.items }
    ensures { (es : List Ptr) → Kept K.cmp list.now es index.now.items → option_copied result ≡ row_of K.eq key.now (rows_in list.now es) }
{
    match node_of(list, index, key) {
        Some(ptr) => Some(list.row(ptr)),
        None => None,
    }
}

/// Renews the row of a node, which goes first by recency.
pub(crate) fn renew<K: Key, V>(
    list: &mut RecencyList<K, V>,
    ptr: *mut Node<K, V>,
    stamp: u64,
    tick: u32,
)
    requires { (es : List Ptr) × (xs : List Ptr) × MayRenew K.cmp list.old ptr stamp tick es xs }
    ensures kept { (es : List Ptr) (xs : List Ptr) → MayRenew K.cmp list.old ptr stamp tick es xs → Kept K.cmp list.new es xs }
    ensures rows { (es : List Ptr) (xs : List Ptr) (h : K) → MayRenew K.cmp list.old ptr stamp tick es xs → HasKey K.cmp list.old ptr h
        → rows_in list.new es ≡ renewed K.eq h stamp tick (rows_in list.old es) }
    ensures len { vec_len list.new.nodes ≡ vec_len list.old.nodes }
    ensures capacity { vec_capacity list.new.nodes ≡ vec_capacity list.old.nodes }
{
    list.unlink(ptr);
    list.link_front(ptr);
    list.renew(ptr, stamp, tick);
}

/// Puts a node that is in no list last by entry, first by recency and at its place into the index.
fn put_in<K: Key, V>(
    list: &mut RecencyList<K, V>,
    entered: &mut VecDeque<*mut Node<K, V>>,
    index: &mut Vec<*mut Node<K, V>>,
    place: usize,
    ptr: *mut Node<K, V>,
)
    requires loose { Loose K.cmp list.old entered.old.items index.old.items ptr }
    requires fits { Fits K.cmp list.old index.old.items ptr place }
    requires ring { deque_len entered.old < deque_capacity entered.old }
    requires places { vec_len index.old < vec_capacity index.old }
    ensures kept { Kept K.cmp list.new entered.new.items index.new.items }
    ensures rows { (row : RowOf K V) → row_at list.old ptr ≡ Some row → rows_in list.new entered.new.items ≡ rows_in list.old entered.old.items ++ row ∷ [] }
    ensures len { vec_len list.new.nodes ≡ vec_len list.old.nodes }
    ensures room { HaveRoom list.old list.new entered.old entered.new index.old index.new }
    ensures more { vec_len index.new ≡ vec_len index.old + 1 }
{
    list.link_front(ptr);
    match entered.push_back(ptr) {
        Ok(()) => {}
        Err(_) => unreachable!(),
    }
    match index.insert(place, ptr) {
        Ok(()) => {}
        Err(_) => unreachable!(),
    }
}

/// Enters a blank row of a new key, for which there is room.
pub(crate) fn enter<K: Key, V: Blank>(
    list: &mut RecencyList<K, V>,
    entered: &mut VecDeque<*mut Node<K, V>>,
    index: &mut Vec<*mut Node<K, V>>,
    place: usize,
    key: K,
    stamp: u64,
    tick: u32,
)
    requires kept { Kept K.cmp list.old entered.old.items index.old.items }
    requires gap { IsGap K.cmp list.old index.old.items key place }
    requires nodes { vec_len list.old.nodes < vec_capacity list.old.nodes }
    requires ring { deque_len entered.old < deque_capacity entered.old }
    requires places { vec_len index.old < vec_capacity index.old }
    requires stamp { All (λ row. row.last < stamp) (rows_in list.old entered.old.items) }
    requires tick { All (λ row. row.tick ≤ tick) (rows_in list.old entered.old.items) }
    ensures kept { Kept K.cmp list.new entered.new.items index.new.items }
    ensures rows { rows_in list.new entered.new.items ≡ rows_in list.old entered.old.items ++ blank_row V.blank_value key stamp tick ∷ [] }
    ensures len { vec_len list.new.nodes ≡ vec_len list.old.nodes + 1 }
    ensures room { HaveRoom list.old list.new entered.old entered.new index.old index.new }
    ensures more { vec_len index.new ≡ vec_len index.old + 1 }
{
    let row = Row {
        key,
        value: V::blank(),
        entry: stamp,
        last: stamp,
        tick,
    };
    let ptr = list.add(row);
    put_in(list, entered, index, place, ptr);
}

// The place in the index of the node of a key, which has one.
fn place_of<K: Key, V>(list: &RecencyList<K, V>, index: &Vec<*mut Node<K, V>>, key: &K) -> usize
    requires index { IsIndex K.cmp list.now index.now.items }
    requires held { (p : Ptr) × In p index.now.items × HasKey K.cmp list.now p key.now }
    ensures { (p : Ptr) → In p index.now.items → HasKey K.cmp list.now p key.now → slice_get index.now.items result ≡ Some p }
{
    match find(list, index, key) {
        Ok(place) => place,
        Err(_) => unreachable!(),
    }
}

/// Moves an item from its place to before the one at another place, and those between by one.
pub fn move_item<T>(items: &mut [T], from: usize, to: usize)
    requires from { from < length items.old }
    requires to { to ≤ length items.old }
    ensures moved { (item : T) → slice_get items.old from ≡ Some item → items.new ≡ insert (remove items.old from) (place_without from to) item }
    ensures len { length items.new ≡ length items.old }
{
    if from < to {
        items[from..to].rotate_left(1);
    } else {
        items[to..from + 1].rotate_right(1);
    }
}

// Takes the node whose last reference is oldest out of the lists. Gives it with its place in the index.
fn put_out<K: Key, V>(
    list: &mut RecencyList<K, V>,
    entered: &mut VecDeque<*mut Node<K, V>>,
    index: &Vec<*mut Node<K, V>>,
) -> (*mut Node<K, V>, usize)
    requires kept { Kept K.cmp list.old entered.old.items index.now.items }
    requires some { 0 < vec_len list.old.nodes }
    ensures out { PutOut K.cmp list.old list.new entered.old.items entered.new.items index.now.items (remove index.now.items result.1) result.0 }
    ensures place { slice_get index.now.items result.1 ≡ Some result.0 }
    ensures len { vec_len list.new.nodes ≡ vec_len list.old.nodes }
    ensures capacity { vec_capacity list.new.nodes ≡ vec_capacity list.old.nodes }
    ensures ring { deque_capacity entered.new ≡ deque_capacity entered.old }
    ensures rank { deque_len entered.new + 1 ≡ deque_len entered.old }
{
    match list.take_oldest() {
        Some(ptr) => {
            let row = list.row(ptr);
            take_entered(list, entered, row.entry);
            (ptr, place_of(list, index, &row.key))
        }
        None => unreachable!(),
    }
}

// Puts a node that is in no list last by entry and first by recency, and moves it from its place in the index to that of its key.
fn put_back<K: Key, V>(
    list: &mut RecencyList<K, V>,
    entered: &mut VecDeque<*mut Node<K, V>>,
    index: &mut Vec<*mut Node<K, V>>,
    from: usize,
    to: usize,
    ptr: *mut Node<K, V>,
)
    requires place { slice_get index.old.items from ≡ Some ptr }
    requires within { to ≤ vec_len index.old }
    requires loose { Loose K.cmp list.old entered.old.items (remove index.old.items from) ptr }
    requires fits { Fits K.cmp list.old (remove index.old.items from) ptr (place_without from to) }
    requires ring { deque_len entered.old < deque_capacity entered.old }
    ensures kept { Kept K.cmp list.new entered.new.items index.new.items }
    ensures rows { (row : RowOf K V) → row_at list.old ptr ≡ Some row → rows_in list.new entered.new.items ≡ rows_in list.old entered.old.items ++ row ∷ [] }
    ensures len { vec_len list.new.nodes ≡ vec_len list.old.nodes }
    ensures room { HaveRoom list.old list.new entered.old entered.new index.old index.new }
    ensures as_many { vec_len index.new ≡ vec_len index.old }
{
    list.link_front(ptr);
    match entered.push_back(ptr) {
        Ok(()) => {}
        Err(_) => unreachable!(),
    }
    move_item(index, from, to);
}

/// Enters a blank row of a new key, which belongs before a place of the index, in the node of the row whose last reference is oldest,
/// and gives the key that went.
pub(crate) fn replace<K: Key, V: Blank>(
    list: &mut RecencyList<K, V>,
    entered: &mut VecDeque<*mut Node<K, V>>,
    index: &mut Vec<*mut Node<K, V>>,
    place: usize,
    key: K,
    stamp: u64,
    tick: u32,
) -> K
    requires kept { Kept K.cmp list.old entered.old.items index.old.items }
    requires some { 0 < vec_len list.old.nodes }
    requires gap { IsGap K.cmp list.old index.old.items key place }
    requires stamp { All (λ row. row.last < stamp) (rows_in list.old entered.old.items) }
    requires tick { All (λ row. row.tick ≤ tick) (rows_in list.old entered.old.items) }
    requires ring { deque_len entered.old ≤ deque_capacity entered.old }
    ensures kept { Kept K.cmp list.new entered.new.items index.new.items }
    ensures rows { rows_in list.new entered.new.items ≡ without_oldest (rows_in list.old entered.old.items) ++ blank_row V.blank_value key stamp tick ∷ [] }
    ensures key { option_map key_of (search (is_oldest (rows_in list.old entered.old.items)) (rows_in list.old entered.old.items)) ≡ Some result }
    ensures len { vec_len list.new.nodes ≡ vec_len list.old.nodes }
    ensures room { HaveRoom list.old list.new entered.old entered.new index.old index.new }
    ensures as_many { vec_len index.new ≡ vec_len index.old }
{
    let (ptr, from) = put_out(list, entered, index);
    let gone = list.row(ptr).key;
    list.begin(ptr, key, stamp, tick);
    put_back(list, entered, index, from, place, ptr);
    gone
}

/// Takes a reference to a key: renews its row, or enters a blank one, for which the oldest row gives way where there are `capacity`.
pub(crate) fn refer<K: Key, V: Blank>(
    list: &mut RecencyList<K, V>,
    entered: &mut VecDeque<*mut Node<K, V>>,
    index: &mut Vec<*mut Node<K, V>>,
    capacity: usize,
    key: K,
    stamp: u64,
    tick: u32,
) -> Touch<K>
    requires kept { Holds K.cmp list.old entered.old index.old capacity }
    requires stamp { All (λ row. row.last < stamp) (rows_in list.old entered.old.items) }
    requires tick { All (λ row. row.tick ≤ tick) (rows_in list.old entered.old.items) }
    ensures kept { Holds K.cmp list.new entered.new index.new capacity }
    ensures rows { rows_in list.new entered.new.items ≡ touched K.eq V.blank_value capacity key stamp tick (rows_in list.old entered.old.items) }
    ensures answer { result ≡ touch_answer K.eq capacity key (rows_in list.old entered.old.items) }
    ensures keys { AreAfter K.eq key result (keys_of (rows_in list.old entered.old.items)) (keys_of (rows_in list.new entered.new.items)) }
    ensures room { HaveRoom list.old list.new entered.old entered.new index.old index.new }
{
    match find(list, index, &key) {
        Ok(place) => {
            renew(list, index[place], stamp, tick);
            Touch::Held
        }
        Err(place) => {
            if list.nodes.len() < capacity {
                enter(list, entered, index, place, key, stamp, tick);
                Touch::Fresh
            } else {
                Touch::Evicted(replace(list, entered, index, place, key, stamp, tick))
            }
        }
    }
}
