// A table under load.
ghost use Rattle.std.specs.Prelude.{◌≡◌, ℕ, ◌+◌, ◌<◌, ◌≤◌, ◌^◌, List, [], ◌∷◌, IfOk};
ghost use Rattle.rm_evicting.specs.Mention.{Mention, refers, keys};
ghost use Rattle.rm_evicting.specs.Held.{is_eviction};
ghost use Rattle.rm_keyed.specs.Entered.{IsOf};
ghost use Rattle.rm_keyed.specs.declared.keyed.TheConstants.{MOST_ROWS};
ghost use Rattle.million_references.specs.Times.{never, and_again, once};
ghost use Rattle.million_references.specs.Loaded.{IsHeld};
ghost use Rattle.million_references.specs.declared.times.Times.{Times as TimesOf};

use crate::times::{ONCE, Times};
use rm_evicting::Key;
use rm_keyed::Keyed;
use rm_pool::Part;
use rm_val::NoMemory;
use std::alloc::Global;
use std::marker::Model;

/// The rows of a table, of which at most so many are held, and how many references put one out.
#[derive(Drop)]
pub struct Loaded<K: Key> {
    pub rows: Keyed<K, Times>,
    pub capacity: u32,
    pub evictions: u64,
}

impl<K: Key> Model for Loaded<K> {
    ghost use Rattle.std.specs.Prelude.{◌≡◌};
    ghost use Rattle.million_references.specs.Loaded.{Held};

    ghost Value = { Held K };

    ghost view = { λ s. record { table = s.rows; evicted = s.evictions } };

    ghost invariant = { λ s. s.rows.rows.capacity ≡ s.capacity };
}

// Whether a reference to a key puts a row out.
fn evicts<K: Key>(rows: &Keyed<K, Times>, capacity: u32, key: &K) -> bool
    requires { rows.now.rows.capacity ≡ capacity }
    ensures { (mentions : List (Mention K TimesOf)) → IsOf K.eq never and_again mentions rows.now
        → result ≡ is_eviction K.eq capacity key.now (keys mentions) }
{
    rows.len() == capacity as usize && rows.get(key).is_none()
}

impl<K: Key> Loaded<K> {
    /// A table without rows. NoMemory where there is none for it.
    pub fn new(alloc: Global, capacity: u32) -> Result<Loaded<K>, NoMemory>
        requires some { 1 ≤ capacity }
        requires most { capacity ≤ MOST_ROWS }
        ensures { IfOk result (λ t. IsHeld K.eq capacity [] t × (t.table.stamps ≡ 0) × (t.table.tick ≡ 0)) }
    {
        let mut rows = Keyed::spare(alloc)?;
        rows.begin(capacity);
        Ok(Loaded {
            rows,
            capacity,
            evictions: 0,
        })
    }

    /// Takes a reference to a key, by its stamp and its tick.
    pub fn refer(&mut self, key: K, stamp: u64, tick: u32)
        requires stamp { self.old.table.stamps ≤ stamp }
        requires fits { stamp + 1 < 2 ^ 64 }
        requires tick { self.old.table.tick ≤ tick }
        requires few { self.old.evicted ≤ stamp }
        ensures means { (room : ℕ) (references : List (Mention K TimesOf)) → IsHeld K.eq room references self.old
            → IsHeld K.eq room (refers key stamp tick once ∷ references) self.new }
        ensures stamps { self.new.table.stamps ≡ stamp + 1 }
        ensures tick { self.new.table.tick ≡ tick }
        ensures few { self.new.evicted ≤ stamp + 1 }
    {
        if evicts(&self.rows, self.capacity, &key) {
            self.evictions += 1;
        }
        self.rows.refer(key, stamp, tick, &ONCE);
    }
}
