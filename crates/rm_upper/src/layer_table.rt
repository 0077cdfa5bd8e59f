// The network and application rows of one control row.

ghost use Rattle.std.specs.Prelude.{◌≡◌, ◌+◌, ◌<◌, ◌≤◌, ◌^◌, List, [], ◌∷◌, ◌++◌, true, length, replicate, IfOk, None};
ghost use Rattle.rm_layers.specs.Event.{Contribution, Event, names, turns_ip, begins, is_ip_on, AreUpTo, AreRising};
ghost use Rattle.rm_layers.specs.Upper.{AreTuned};
ghost use Rattle.rm_layers.specs.Turning.{IsChange};

use crate::counts::LayerCounts;
use crate::network_rows::NetworkRows;
use rm_evicting::Key;
use rm_rows::Touch;
use rm_val::NoMemory;
use std::alloc::Global;
use std::marker::Model;

/// The network and application rows that a row of hlHostControl or hlMatrixControl holds, and whether ip is on for hosts or for matrices.
/// While it isn't, no frame is a reference.
#[derive(Drop)]
pub struct LayerTable<K: Key, N: LayerCounts> {
    rows: NetworkRows<K, N>,
    on: bool,
    // The stamps of all references so far are below it.
    next: u64,
    // The ticks of all references so far aren't above it.
    latest: u32,
}

impl<K: Key, N: LayerCounts> Model for LayerTable<K, N> {
    ghost use Rattle.rm_upper.specs.LayerTable.{LayerTable as Layers, IsReady};

    ghost Value = { Layers K N N.Application };

    ghost view = { λ s. record { layered = s.rows; on = s.on; next = s.next; latest = s.latest } };

    ghost invariant = { λ s. IsReady s.rows s.next s.latest };
}

impl<K: Key, N: LayerCounts> LayerTable<K, N> {
    ghost use Rattle.rm_layers.specs.Applications.{AreApart};
    ghost use Rattle.rm_upper.specs.Shown.{protocols, Agrees};
    ghost use Rattle.rm_upper.specs.Standing.{StandsFor};
    ghost use Rattle.rm_rows.specs.Table.{AreAfter, keys_of};

    /// No rows, with ip on and no other protocol, and memory for so many network rows. NoMemory where there is none.
    pub fn new(alloc: Global, capacity: usize) -> Result<LayerTable<K, N>, NoMemory>
        requires some { 1 ≤ capacity }
        requires bound { capacity ≤ 4096 }
        ensures room { IfOk result (λ table. table.layered.table.room ≡ capacity) }
        ensures slots { IfOk result (λ table. protocols table.layered.slots ≡ replicate 32 None) }
        ensures none { IfOk result (λ table. table.layered.table.rows ≡ []) }
    {
        let rows = NetworkRows::new(alloc, capacity)?;
        Ok(LayerTable {
            rows,
            on: true,
            next: 0,
            latest: 0,
        })
    }

    /// Takes a frame that names a key, with the protocols on its path that are on, its stamp, its tick, and what it adds: a reference
    /// while ip is on, and else nothing. Tells what it did to the keys; while ip is off, that is what it does to them where the key is held.
    pub fn name(&mut self, key: K, path: &[u32], stamp: u64, tick: u32, gain: &N) -> Touch<K>
        requires next { self.old.next ≤ stamp }
        requires latest { self.old.latest ≤ tick }
        requires fits { stamp < 2 ^ 58 }
        ensures on { self.new.on ≡ self.old.on }
        ensures slots { self.new.layered.slots ≡ self.old.layered.slots }
        ensures capacity { self.new.layered.table.capacity ≡ self.old.layered.table.capacity }
        ensures room { self.new.layered.table.room ≡ self.old.layered.table.room }
        ensures next { self.new.next ≡ stamp + 1 }
        ensures latest { self.new.latest ≡ tick }
        ensures keys { AreAfter K.eq key result (keys_of self.old.layered.table.rows) (keys_of self.new.layered.table.rows) }
        ensures few { length self.new.layered.table.rows ≤ self.new.layered.table.room }
        ensures stands { (earlier : List (Event K N)) (brings : Contribution N) → brings.stamp ≡ stamp → brings.tick ≡ tick → brings.gain ≡ gain.now
            → Agrees self.old.layered.slots path.now brings → is_ip_on earlier ≡ self.old.on → AreTuned (protocols self.old.layered.slots) earlier → AreRising (names key brings ∷ earlier)
            → StandsFor N.tally K.eq earlier self.old.layered → StandsFor N.tally K.eq (names key brings ∷ earlier) self.new.layered }
    {
        let touch = if self.on {
            self.rows.refer(key, path, stamp, tick, gain)
        } else {
            self.rows.are_few();
            Touch::Held
        };
        self.next = stamp + 1;
        self.latest = tick;
        touch
    }

    /// Whether ip is on.
    pub fn is_ip_on(&self) -> bool
        ensures { result ≡ self.now.on }
    {
        self.on
    }

    /// Turns ip on or off, by which every row goes.
    pub fn turn_ip(&mut self, on: bool)
        ensures on { self.new.on ≡ on }
        ensures slots { self.new.layered.slots ≡ self.old.layered.slots }
        ensures capacity { self.new.layered.table.capacity ≡ self.old.layered.table.capacity }
        ensures room { self.new.layered.table.room ≡ self.old.layered.table.room }
        ensures next { self.new.next ≡ self.old.next }
        ensures latest { self.new.latest ≡ self.old.latest }
        ensures none { self.new.layered.table.rows ≡ [] }
        ensures stands { (earlier : List (Event K N)) → StandsFor N.tally K.eq earlier self.old.layered → StandsFor N.tally K.eq (turns_ip on ∷ earlier) self.new.layered }
    {
        self.rows.clear();
        self.on = on;
    }

    /// Turns protocols on and off, by the one above ip that is on in each slot now; no protocol has two slots. Those that are new are on
    /// from a stamp, which is above those of all references so far.
    pub fn retune(&mut self, now: &[Option<u32>; 32], stamp: u64)
        requires apart { AreApart now.now }
        ensures on { self.new.on ≡ self.old.on }
        ensures slots { protocols self.new.layered.slots ≡ now.now }
        ensures capacity { self.new.layered.table.capacity ≡ self.old.layered.table.capacity }
        ensures room { self.new.layered.table.room ≡ self.old.layered.table.room }
        ensures next { self.new.next ≡ self.old.next }
        ensures latest { self.new.latest ≡ self.old.latest }
        ensures table { self.new.layered.table ≡ self.old.layered.table }
        ensures stands { (turnings earlier : List (Event K N)) → AreUpTo stamp earlier → AreTuned (protocols self.old.layered.slots) earlier → AreTuned now.now (turnings ++ earlier)
            → IsChange stamp turnings earlier (protocols self.old.layered.slots) now.now → StandsFor N.tally K.eq earlier self.old.layered → StandsFor N.tally K.eq (turnings ++ earlier) self.new.layered }
    {
        self.rows.retune(now, stamp);
    }

    /// Begins anew, as the control row becomes active, with a capacity within the room that was reserved, with the protocol above ip that
    /// is on in each slot, of which no protocol has two, and with ip on or off.
    pub fn begin(&mut self, capacity: usize, now: &[Option<u32>; 32], on: bool)
        requires some { 1 ≤ capacity }
        requires within { capacity ≤ self.old.layered.table.room }
        requires apart { AreApart now.now }
        ensures on { self.new.on ≡ on }
        ensures slots { protocols self.new.layered.slots ≡ now.now }
        ensures capacity { self.new.layered.table.capacity ≡ capacity }
        ensures room { self.new.layered.table.room ≡ self.old.layered.table.room }
        ensures next { self.new.next ≡ 0 }
        ensures latest { self.new.latest ≡ 0 }
        ensures none { self.new.layered.table.rows ≡ [] }
        ensures stands { (earlier : List (Event K N)) → StandsFor N.tally K.eq (begins ∷ earlier) self.new.layered }
    {
        self.rows.begin(capacity, now);
        self.on = on;
        self.next = 0;
        self.latest = 0;
    }

    /// The rows.
    pub fn rows(&self) -> &NetworkRows<K, N>
        ensures { result.now ≡ self.now.layered }
    {
        &self.rows
    }
}
