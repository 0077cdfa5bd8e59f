// What is kept of the reports of all rows, but for Sets.
ghost use Rattle.std.specs.Prelude.{◌≡◌, ◌+◌, ◌<◌, ◌≤◌, ◌∷◌, ℕ, [], max, OnOk};
ghost use Rattle.rm_group.specs.declared.bounds.TheConstants.{MOST_FRAMES, MOST_OCTETS};
ghost use Rattle.rm_model.specs.Counting.{Counting};
ghost use Rattle.rm_model.specs.FrameFacts.{frame_facts};
ghost use Rattle.rm_model.specs.Journal.{Frame, Journal, passes, last_moment};
ghost use Rattle.rm_topn.specs.Due.{HasEnded, IsEndDue, reports_left};
ghost use Rattle.rm_topn.specs.Group.{IsReleased, IsStocked};
ghost use Rattle.rm_topn.specs.Held.{AreAskable};
ghost use Rattle.rm_topn.specs.Kept.{DoHostsStand};
ghost use Rattle.rm_topn.specs.Standing.{HasBegun, Stands};

use crate::ending::Ending;
use crate::reports::Reports;
use rm_group::MOST_FRAMES;
use rm_hosts::Hosts;
use rm_pool::Pool;
use rm_proto::Facts;
use rm_status::Controls;
use rm_val::NoMemory;
use std::alloc::Global;

impl Reports {
    /// The tables before the first frame. They have no row, and no storage.
    pub fn new() -> Reports
        ensures stands { (settings : Counting) → Stands result settings [] }
        ensures last { result.last ≡ 0 }
        ensures frames { result.frames ≡ 0 }
    {
        Reports {
            rows: Controls::new(),
            courses: Pool::new(),
            frames: 0,
            last: 0,
        }
    }

    /// Takes the storage of one row, which is needed before the first Set. No variable changes.
    pub fn reserve(&mut self, alloc: Global) -> Result<(), NoMemory>
        ensures stands { (settings : Counting) (journal : Journal) → Stands self.old settings journal → Stands self.new settings journal }
        ensures stocked { OnOk result (IsStocked self.new) }
        ensures last { self.new.last ≡ self.old.last }
        ensures frames { self.new.frames ≡ self.old.frames }
    {
        self.courses.reserve(alloc)
    }

    /// Ends the reports that are due up to a moment, in milliseconds, by the hosts as they are. It may then be asked at that moment.
    pub fn end_by(&mut self, hosts: &Hosts, moment: u32)
        ensures stands { (settings : Counting) (journal : Journal) → DoHostsStand hosts.now settings journal → Stands self.old settings journal
            → Stands self.new settings journal }
        ensures askable { AreAskable self.new.courses moment }
        ensures ended { HasEnded moment (IsEndDue self.old) (IsEndDue self.new) (reports_left self.old) (reports_left self.new) }
        ensures stocked { IsStocked self.old → IsStocked self.new }
        ensures last { self.new.last ≡ max self.old.last moment }
        ensures frames { self.new.frames ≡ self.old.frames }
    {
        prove!(self.rows.len() <= 32);
        self.courses.change_each(&Ending { hosts, moment });
        self.last = self.last.max(moment);
    }

    /// A frame passes at a moment, in milliseconds, which isn't below the one given last. Fewer than `MOST_FRAMES` frames were given before.
    pub fn frame(&mut self, facts: &Facts, moment: u32)
        requires later { self.old.last ≤ moment }
        requires room { self.old.frames < MOST_FRAMES }
        requires length { facts.now.length ≤ MOST_OCTETS }
        ensures stands { (settings : Counting) (journal : Journal) (frame : Frame) → Stands self.old settings journal → last_moment journal ≤ moment
            → AreAskable self.old.courses moment → facts.now ≡ frame_facts settings frame → frame.moment ≡ moment
            → Stands self.new settings (passes frame ∷ journal) }
        ensures stocked { IsStocked self.old → IsStocked self.new }
        ensures last { self.new.last ≡ moment }
        ensures frames { self.new.frames ≡ self.old.frames + 1 }
    {
        let _ = facts;
        self.frames += 1;
        self.last = moment;
    }

    // Gives storage back, but for that of the valid rows, or of one row.
    pub(crate) fn give_back(&mut self)
        ensures stands { (settings : Counting) (journal : Journal) → Stands self.old settings journal → Stands self.new settings journal }
        ensures begun { (settings : Counting) (journal : Journal) → HasBegun self.old settings journal → HasBegun self.new settings journal }
        ensures askable { (moment : ℕ) → AreAskable self.old.courses moment → AreAskable self.new.courses moment }
        ensures stocked { IsStocked self.old → IsStocked self.new }
        ensures released { IsReleased self.new }
        ensures last { self.new.last ≡ self.old.last }
        ensures frames { self.new.frames ≡ self.old.frames }
    {
        self.courses.give_back(&self.rows);
    }
}
