// A control table, and what its valid rows collect.
ghost use Rattle.std.specs.Prelude.{◌≡◌, ℕ, ℤ, ◌+◌, ◌<◌, ◌≤◌, [], ◌∷◌, Option, OnOk};
ghost use Rattle.std.specs.Option.{option_copied};
ghost use Rattle.rm_model.specs.Counting.{Counting};
ghost use Rattle.rm_model.specs.Journal.{Journal, Frame, last_moment, passes, samples};
ghost use Rattle.rm_group.specs.declared.bounds.TheConstants.{MOST_FRAMES, MOST_OCTETS};
ghost use Rattle.rm_group.specs.Passing.{IsOf};
ghost use Rattle.rm_pool.specs.Slots.{part_in};
ghost use Rattle.rm_collect.specs.Passed.{passed};
ghost use Rattle.rm_collect.specs.Rows.{IsKept};
ghost use Rattle.rm_collect.specs.Group.{Stands, IsStocked, frames_given, last_given};

use crate::collected::{ByFacts, Collected};
use crate::table::Table;
use rm_group::{MOST_FRAMES, MOST_OCTETS, Passing};
use rm_pool::Pool;
use rm_status::Controls;
use rm_val::NoMemory;
use std::alloc::Global;
use std::marker::Model;

/// A control table, and what each of its valid rows collects, each in storage of its own; other storage may be spare.
#[derive(Drop)]
pub struct Collecting<P: Collected> {
    pub(crate) table: Table<P>,
    pub(crate) parts: Pool<P>,
    // How many frames it was given.
    pub(crate) frames: u32,
}

impl<P: Collected> Model for Collecting<P> {
    ghost use Rattle.rm_collect.specs.Held.{Held};
    ghost use Rattle.rm_collect.specs.WellHeld.{IsWellHeld};

    ghost Value = { Held P.Columns P P.Shared };

    ghost view = { λ s. record { rows = s.table.rows; parts = s.parts; shared = s.table.shared; frames = s.frames; last = s.table.last } };

    ghost invariant = { λ s. IsWellHeld P.collection (record { rows = s.table.rows; parts = s.parts; shared = s.table.shared; frames = s.frames; last = s.table.last }) };
}

impl<P: Collected> Collecting<P> {
    /// The table before the first frame. It has no row, and no storage.
    pub fn new(shared: P::Shared) -> Collecting<P>
        ensures stands { (settings : Counting) → P.collection.suits shared settings [] → Stands P.Columns.form P.collection result settings [] }
        ensures frames { frames_given result ≡ 0 }
        ensures last { last_given result ≡ 0 }
    {
        let table = Table {
            rows: Controls::new(),
            shared,
            last: 0,
        };
        Collecting {
            table,
            parts: Pool::new(),
            frames: 0,
        }
    }

    /// Takes the storage of one row, which is needed before the first Set. No variable changes.
    pub fn reserve(&mut self, alloc: Global) -> Result<(), NoMemory>
        ensures stands { (settings : Counting) (journal : Journal) → Stands P.Columns.form P.collection self.old settings journal
            → Stands P.Columns.form P.collection self.new settings journal }
        ensures stocked { OnOk result (IsStocked self.new) }
        ensures frames { frames_given self.new ≡ frames_given self.old }
        ensures last { last_given self.new ≡ last_given self.old }
    {
        self.parts.reserve(alloc)
    }

    /// A frame passes that was judged to be these, at a moment which isn't below the one given last: each valid row takes it. Fewer than
    /// `MOST_FRAMES` frames were given before.
    pub fn take_judged(&mut self, judged: &[P::Judged], passing: &Passing<'_>)
        requires later { last_given self.old ≤ passing.now.moment }
        requires room { frames_given self.old < MOST_FRAMES }
        requires length { passing.now.facts.length ≤ MOST_OCTETS }
        requires within { P.collection.within (passed passing.now.facts passing.now.octets.now passing.now.number passing.now.moment) }
        ensures stands { (settings : Counting) (journal : Journal) (frame : Frame) → Stands P.Columns.form P.collection self.old settings journal
            → IsOf settings frame passing.now.facts passing.now.octets.now passing.now.number passing.now.moment
            → P.collection.judges settings journal frame judged.now
            → Stands P.Columns.form P.collection self.new settings (passes frame ∷ journal) }
        ensures frames { frames_given self.new ≡ frames_given self.old + 1 }
        ensures last { last_given self.new ≡ passing.now.moment }
        ensures stocked { IsStocked self.old → IsStocked self.new }
    {
        let before = self.frames;
        P::pass(&mut self.parts, judged, passing, before);
        self.frames = before + 1;
        self.table.last = passing.moment;
    }

    /// A law: the sample of an alarm at a moment in milliseconds, which isn't below that of the last act, makes no difference to what rows
    /// collect. It does nothing.
    pub fn sample_begins(&self, moment: u32)
        ensures { (settings : Counting) (earlier : Journal) (alarm : ℕ) (reading : Option ℤ) → Stands P.Columns.form P.collection self.now settings earlier
            → last_moment earlier ≤ moment → Stands P.Columns.form P.collection self.now settings (samples moment alarm reading ∷ earlier) }
    {}

    /// What a row has collected. None exactly where the row isn't valid.
    pub fn part(&self, row: u32) -> Option<&P>
        ensures value { option_copied result ≡ part_in self.now.parts row }
        ensures kept { (settings : Counting) (journal : Journal) → Stands P.Columns.form P.collection self.now settings journal
            → IsKept P.Columns.form.table P.collection.is_of settings journal row (option_copied result) }
    {
        self.parts.get(row)
    }
}

impl<P: ByFacts> Collecting<P> {
    /// A frame passes at a moment which isn't below the one given last: each valid row takes it. Fewer than `MOST_FRAMES` frames were
    /// given before.
    pub fn frame(&mut self, passing: &Passing<'_>)
        requires later { last_given self.old ≤ passing.now.moment }
        requires room { frames_given self.old < MOST_FRAMES }
        requires length { passing.now.facts.length ≤ MOST_OCTETS }
        ensures stands { (settings : Counting) (journal : Journal) (frame : Frame) → Stands P.Columns.form P.collection self.old settings journal
            → IsOf settings frame passing.now.facts passing.now.octets.now passing.now.number passing.now.moment
            → Stands P.Columns.form P.collection self.new settings (passes frame ∷ journal) }
        ensures frames { frames_given self.new ≡ frames_given self.old + 1 }
        ensures last { last_given self.new ≡ passing.now.moment }
        ensures stocked { IsStocked self.old → IsStocked self.new }
    {
        self.take_judged(&[], passing);
    }
}
