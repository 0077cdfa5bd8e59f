// The network rows of one control row.

ghost use Rattle.std.specs.Prelude.{◌≡◌, ◌+◌, ◌-◌, ◌<◌, ◌≤◌, ◌^◌, cond, Bool, true, List, [], ◌∷◌, ◌++◌, length, All, IfOk, replicate, None};
ghost use Rattle.rm_layers.specs.Event.{Contribution, Event, names, turns_ip, begins, is_ip_on, AreUpTo, AreRising};
ghost use Rattle.rm_layers.specs.Upper.{AreTuned};
ghost use Rattle.rm_layers.specs.Turning.{IsChange};
ghost use Rattle.rm_upper.specs.Shown.{had_row};

use crate::counts::{Counted, LayerCounts};
use crate::kept_rows::KeptRows;
use crate::order::{RowOrder, application_after};
use crate::slots::{Slot, retune_all};
use crate::walk::{count_applications, next_protocol, show_application};
use rm_evicting::Key;
use rm_rows::Touch;
use rm_val::NoMemory;
use std::alloc::Global;
use std::marker::Model;

/// The network rows of one control row, the protocols above ip that are on, each in a slot, and how many network rows and application
/// rows were entered since the control row became active.
#[derive(Drop)]
pub struct NetworkRows<K: Key, N: LayerCounts> {
    rows: KeptRows<K, N>,
    slots: [Option<Slot>; 32],
    network_inserts: u64,
    application_inserts: u64,
}

impl<K: Key, N: LayerCounts> Model for NetworkRows<K, N> {
    ghost use Rattle.std.specs.Prelude.{◌<◌};
    ghost use Rattle.rm_upper.specs.Standing.{Layered};
    ghost use Rattle.rm_upper.specs.Sound.{AreSound};
    ghost use Rattle.rm_layers.specs.Applications.{AreApart};
    ghost use Rattle.rm_upper.specs.Shown.{protocols};

    ghost Value = { Layered K N N.Application };

    ghost view = { λ s. record { table = s.rows; slots = s.slots; network_inserts = s.network_inserts; application_inserts = s.application_inserts } };

    ghost invariant = { λ s. (0 < s.rows.capacity) × AreSound K.eq s.rows.rows × AreApart (protocols s.slots) };
}

impl<K: Key, N: LayerCounts> NetworkRows<K, N> {
    ghost use Rattle.rm_layers.specs.Applications.{AreApart};
    ghost use Rattle.rm_upper.specs.Shown.{protocols, Agrees};
    ghost use Rattle.rm_upper.specs.Standing.{StandsFor, referred, slots_after};
    ghost use Rattle.rm_upper.specs.Sound.{AreSound};
    ghost use Rattle.rm_upper.specs.Walk.{ShowsApplication, ShowsNetwork};
    ghost use Rattle.rm_layers.specs.Marks.{IsAboveName, IsAboveApplication, IsNextInstance, ApplicationLasts, NetworkLasts, pair_cmp};
    ghost use Rattle.std.specs.Ordering.{nat_cmp};
    ghost use Rattle.rm_layers.specs.Network.{network_inserts, application_inserts, network_deletes, application_deletes};
    ghost use Rattle.rm_upper.specs.Count.{held_of, held_by_keys};
    ghost use Rattle.rm_upper.specs.Cells.{network_row, application_row, network_in, application_in_row};
    ghost use Rattle.rm_rows.specs.Table.{AreAfter, keys_of, row_of};

    /// No rows, no protocol on, and memory for so many network rows. NoMemory where there is none.
    pub fn new(alloc: Global, capacity: usize) -> Result<NetworkRows<K, N>, NoMemory>
        requires some { 1 ≤ capacity }
        requires bound { capacity ≤ 4096 }
        ensures { IfOk result (λ layered. layered ≡ record { table = record { room = capacity; capacity = capacity; rows = [] }; slots = replicate 32 None; network_inserts = 0; application_inserts = 0 }) }
    {
        let rows = KeptRows::new(alloc, capacity)?;
        Ok(NetworkRows {
            rows,
            slots: [None; 32],
            network_inserts: 0,
            application_inserts: 0,
        })
    }

    /// Takes a reference to a key, with the protocols on its path that are on, its stamp, which is above those of all references before,
    /// its tick, which isn't below theirs, and what it adds. Tells what it did to the keys.
    pub fn refer(&mut self, key: K, path: &[u32], stamp: u64, tick: u32, gain: &N) -> Touch<K>
        requires stamp { All (λ row. row.last < stamp) self.old.table.rows }
        requires tick { All (λ row. row.tick ≤ tick) self.old.table.rows }
        requires network { self.old.network_inserts < 2 ^ 63 }
        requires applications { self.old.application_inserts < 2 ^ 63 }
        ensures kept { self.new ≡ referred N.tally K.eq path.now key stamp tick gain.now self.old }
        ensures entered { self.new.network_inserts ≤ self.old.network_inserts + 1 }
        ensures made { self.new.application_inserts ≤ self.old.application_inserts + 32 }
        ensures keys { AreAfter K.eq key result (keys_of self.old.table.rows) (keys_of self.new.table.rows) }
        ensures few { length self.new.table.rows ≤ self.new.table.room }
        ensures stands { (earlier : List (Event K N)) (brings : Contribution N) → brings.stamp ≡ stamp → brings.tick ≡ tick → brings.gain ≡ gain.now
            → Agrees self.old.slots path.now brings → is_ip_on earlier ≡ true → AreTuned (protocols self.old.slots) earlier → AreRising (names key brings ∷ earlier)
            → StandsFor N.tally K.eq earlier self.old → StandsFor N.tally K.eq (names key brings ∷ earlier) self.new }
    {
        let touch = self.rows.touch(key, stamp, tick);
        self.network_inserts += entered(&touch);
        let made = self.rows.gain(&key, &self.slots, path, stamp, tick, gain);
        self.application_inserts += made as u64;
        touch
    }

    /// Turns protocols on and off, by the one above ip that is on in each slot now; no protocol has two slots. Those that are new are on
    /// from a stamp, which is above those of all references so far.
    pub fn retune(&mut self, now: &[Option<u32>; 32], stamp: u64)
        requires apart { AreApart now.now }
        ensures kept { self.new ≡ record { table = self.old.table; slots = slots_after stamp self.old.slots now.now; network_inserts = self.old.network_inserts; application_inserts = self.old.application_inserts } }
        ensures slots { protocols self.new.slots ≡ now.now }
        ensures stands { (turnings earlier : List (Event K N)) → AreUpTo stamp earlier → AreTuned (protocols self.old.slots) earlier → AreTuned now.now (turnings ++ earlier)
            → IsChange stamp turnings earlier (protocols self.old.slots) now.now → StandsFor N.tally K.eq earlier self.old → StandsFor N.tally K.eq (turnings ++ earlier) self.new }
    {
        retune_all(&mut self.slots, now, stamp);
    }

    /// Takes every row away, as ip is turned on or off.
    pub fn clear(&mut self)
        ensures kept { self.new ≡ record { table = record { room = self.old.table.room; capacity = self.old.table.capacity; rows = [] }; slots = self.old.slots; network_inserts = self.old.network_inserts; application_inserts = self.old.application_inserts } }
        ensures stands { (on : Bool) (earlier : List (Event K N)) → StandsFor N.tally K.eq earlier self.old → StandsFor N.tally K.eq (turns_ip on ∷ earlier) self.new }
    {
        self.rows.clear();
    }

    /// Begins anew, as the control row becomes active, with a capacity within the room that was reserved, and with the protocol above ip
    /// that is on in each slot; no protocol has two.
    pub fn begin(&mut self, capacity: usize, now: &[Option<u32>; 32])
        requires some { 1 ≤ capacity }
        requires within { capacity ≤ self.old.table.room }
        requires apart { AreApart now.now }
        ensures kept { self.new ≡ record { table = record { room = self.old.table.room; capacity = capacity; rows = [] }; slots = slots_after 0 (replicate 32 None) now.now; network_inserts = 0; application_inserts = 0 } }
        ensures slots { protocols self.new.slots ≡ now.now }
        ensures stands { (earlier : List (Event K N)) → StandsFor N.tally K.eq (begins ∷ earlier) self.new }
    {
        self.rows.reset(capacity);
        self.slots = [None; 32];
        retune_all(&mut self.slots, now, 0);
        self.network_inserts = 0;
        self.application_inserts = 0;
    }

    /// A law: no key has two rows, and each row has had a contribution, so that it shows something. It does nothing.
    pub fn are_sound(&self)
        ensures { AreSound K.eq self.now.table.rows }
    {
        let _ = &self.rows;
    }

    /// A law: there is room for the rows that there are. It does nothing.
    pub fn are_few(&self)
        ensures { length self.now.table.rows ≤ self.now.table.room }
    {
        self.rows.len();
    }

    // What is kept of the application row of a key and a protocol.
    fn find_application(&self, key: &K, protocol: u32) -> Option<Counted<N::Application>>
        ensures { result ≡ application_in_row self.now.slots protocol (row_of K.eq key.now self.now.table.rows) }
    {
        match self.rows.applications(key) {
            Some(applications) => show_application(&self.slots, applications, protocol),
            None => None,
        }
    }

    /// What the network row of a key shows. None where it has none.
    pub fn network(&self, key: &K) -> Option<Counted<N>>
        ensures kept { result ≡ network_in (row_of K.eq key.now self.now.table.rows) }
        ensures stands { (events : List (Event K N)) → AreTuned (protocols self.now.slots) events → StandsFor N.tally K.eq events self.now
            → result ≡ network_row N.tally K.eq self.now.table.capacity key.now events }
    {
        self.rows.network(key)
    }

    /// What the application row of a key and a protocol shows. None where there is none.
    pub fn application(&self, key: &K, protocol: u32) -> Option<Counted<N::Application>>
        ensures kept { result ≡ application_in_row self.now.slots protocol (row_of K.eq key.now self.now.table.rows) }
        ensures stands { (events : List (Event K N)) → AreTuned (protocols self.now.slots) events → StandsFor N.tally K.eq events self.now
            → result ≡ application_row N.tally K.eq self.now.table.capacity key.now protocol events }
    {
        self.find_application(key, protocol)
    }

    /// The next instance of an application row, by mark, key and protocol, above a mark, maybe a key and maybe a protocol. Each row stands
    /// at each mark up to the tick of its last contribution (RFC 2021, TimeFilter). It skips network rows that have no application row at
    /// the mark, and what is kept of a protocol from before it was last turned on. None where there is none.
    pub fn application_after(
        &self,
        mark: u32,
        from: Option<(K, Option<u32>)>,
    ) -> Option<(u32, (K, u32))>
        ensures kept { IsNextInstance (pair_cmp K.cmp nat_cmp) (ShowsApplication K.eq self.now) mark (IsAboveApplication K.cmp from) result }
        ensures stands { (events : List (Event K N)) → AreTuned (protocols self.now.slots) events → StandsFor N.tally K.eq events self.now
            → IsNextInstance (pair_cmp K.cmp nat_cmp) (ApplicationLasts K.eq self.now.table.capacity events) mark (IsAboveApplication K.cmp from) result }
    {
        application_after(self, mark, from)
    }

    /// The next instance of a network row, by mark and key, above a mark and maybe a key. None where there is none.
    pub fn network_after(&self, mark: u32, from: Option<K>) -> Option<(u32, K)>
        ensures kept { IsNextInstance K.cmp (ShowsNetwork K.eq self.now) mark (IsAboveName K.cmp from) result }
        ensures stands { (events : List (Event K N)) → AreTuned (protocols self.now.slots) events → StandsFor N.tally K.eq events self.now
            → IsNextInstance K.cmp (NetworkLasts K.eq self.now.table.capacity events) mark (IsAboveName K.cmp from) result }
    {
        match self.rows.mark_after(mark, from.as_ref()) {
            Some((mark, key)) => Some((mark, *key)),
            None => None,
        }
    }

    /// How many network rows were entered since the control row became active.
    pub fn network_inserts(&self) -> u64
        ensures kept { result ≡ self.now.network_inserts }
        ensures stands { (events : List (Event K N)) → StandsFor N.tally K.eq events self.now → result ≡ network_inserts K.eq self.now.table.capacity events }
    {
        self.network_inserts
    }

    /// How many application rows were.
    pub fn application_inserts(&self) -> u64
        ensures kept { result ≡ self.now.application_inserts }
        ensures stands { (events : List (Event K N)) → StandsFor N.tally K.eq events self.now → result ≡ application_inserts K.eq self.now.table.capacity events }
    {
        self.application_inserts
    }

    /// How many of the network rows that were entered are gone.
    pub fn network_deletes(&self) -> u64
        ensures kept { result ≡ self.now.network_inserts - length self.now.table.rows }
        ensures stands { (events : List (Event K N)) → StandsFor N.tally K.eq events self.now → result ≡ network_deletes K.eq self.now.table.capacity events }
    {
        self.network_inserts.saturating_sub(self.rows.len() as u64)
    }

    // How many application rows the row of a key has.
    fn count_in(&self, key: &K) -> u32
        ensures { result ≡ held_of K.eq self.now key.now }
    {
        match self.rows.applications(key) {
            Some(applications) => count_applications(&self.slots, applications),
            None => 0,
        }
    }

    /// How many of the application rows that were entered are gone.
    pub fn application_deletes(&self) -> u64
        ensures kept { result ≡ self.now.application_inserts - held_by_keys K.eq self.now self.now.table.rows }
        ensures stands { (events : List (Event K N)) → AreTuned (protocols self.now.slots) events → StandsFor N.tally K.eq events self.now
            → result ≡ application_deletes K.eq self.now.table.capacity events }
    {
        let mut held: u64 = 0;
        for place in 0..self.rows.len() {
            if let Some(key) = self.rows.made(place + 1) {
                held = held.saturating_add(self.count_in(key) as u64);
            }
        }
        self.application_inserts.saturating_sub(held)
    }
}

impl<K: Key, N: LayerCounts> RowOrder for NetworkRows<K, N> {
    type Key = K;

    type Counts = N;

    ghost seen = { λ s. s };

    fn after(&self, key: Option<&K>) -> Option<K> {
        self.rows.after(key).copied()
    }

    fn stands_at(&self, key: &K, mark: u64) -> bool {
        match self.rows.mark(key) {
            Some(tick) => mark <= tick as u64,
            None => false,
        }
    }

    fn next_in(&self, key: &K, mark: u64, from: Option<u32>) -> Option<u32> {
        match self.rows.applications(key) {
            Some(applications) => next_protocol(&self.slots, applications, mark, from),
            None => None,
        }
    }
}

// How many rows a reference entered.
fn entered<K>(touch: &Touch<K>) -> u64
    ensures { result ≡ cond (had_row touch.now) 0 1 }
{
    match touch {
        Touch::Held => 0,
        _ => 1,
    }
}
