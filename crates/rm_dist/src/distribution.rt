// The distribution of protocols.
ghost use Rattle.std.specs.Prelude.{◌≡◌, ◌+◌, ◌<◌, ◌≤◌, ◌∷◌, [], ℕ, ℤ, List, Option, IfSome};
ghost use Rattle.std.specs.Option.{option_map};
ghost use Rattle.rm_val.specs.Val.{val_of};
ghost use Rattle.rm_val.specs.Spellable.{HasSpelling};
ghost use Rattle.rm_group.specs.declared.bounds.TheConstants.{MOST_FRAMES};
ghost use Rattle.rm_model.specs.Counting.{Counting as Settings};
ghost use Rattle.rm_model.specs.FrameFacts.{frame_facts};
ghost use Rattle.rm_model.specs.Journal.{Assignments, Frame, Journal, assigns, passes, samples, value_given};
ghost use Rattle.rm_dir.specs.Group.{Stands as IsDirectory};

use crate::cell::Others;
use crate::change::{Counting, Resting, Sifting};
use crate::locals::locals_on_path;
use crate::row::DistributionRow;
use crate::stats::Counted;
use rm_dir::Directory;
use rm_group::{Assigns, MOST_FRAMES};
use rm_nested::cell_of_both;
use rm_proto::Facts;
use rm_status::Controls;
use rm_val::{Oid, Value};

/// The distribution of protocols: protocolDistControlTable and protocolDistStatsTable (RFC 2021, section 6).
#[derive(Drop)]
pub struct Distribution {
    pub(crate) rows: Controls<DistributionRow>,
    // How many frames it was given.
    pub(crate) frames: u32,
    // The moment of the last frame or Set, in milliseconds.
    pub(crate) last: u32,
}

impl Distribution {
    ghost use Rattle.rm_dist.specs.Group.{AreFine, HasBegun, Stands};
    ghost use Rattle.rm_dist.specs.Shown.{cells_kept};

    /// The distribution before the first frame. It has no row.
    pub fn new() -> Distribution
        ensures stands { (settings : Settings) → Stands result settings [] }
        ensures frames { result.frames ≡ 0 }
        ensures last { result.last ≡ 0 }
    {
        Distribution {
            rows: Controls::new(),
            frames: 0,
            last: 0,
        }
    }

    /// Counts a frame that passes at a moment, in milliseconds, which isn't below the one given last, by the protocols that are active in
    /// the directory. Fewer than `MOST_FRAMES` frames were given before.
    pub fn frame(&mut self, directory: &Directory, facts: &Facts, moment: u32)
        requires later { self.old.last ≤ moment }
        requires room { self.old.frames < MOST_FRAMES }
        ensures stands { (settings : Settings) (journal : Journal) (frame : Frame) → IsDirectory directory.now journal → Stands self.old settings journal
            → facts.now ≡ frame_facts settings frame → frame.moment ≡ moment → Stands self.new settings (passes frame ∷ journal) }
        ensures frames { self.new.frames ≡ self.old.frames + 1 }
        ensures last { self.new.last ≡ moment }
    {
        let locals = locals_on_path(directory, facts);
        self.rows.change_each(&Counting {
            facts,
            locals: locals.as_slice(),
        });
        self.frames += 1;
        self.last = moment;
    }

    /// A law: the sample of an alarm makes no difference to the distribution. It does nothing.
    pub fn sample_begins(&self, moment: u32)
        ensures { (settings : Settings) (journal : Journal) (alarm : ℕ) (reading : Option ℤ) → Stands self.now settings journal
            → Stands self.now settings (samples moment alarm reading ∷ journal) }
    {}

    /// The value of the cell with that name in either table, at a moment in milliseconds. None where there is no such cell.
    pub(crate) fn shown_at(&self, name: &Oid, now: u32) -> Option<Value<'_>>
        ensures value { option_map val_of result ≡ cells_kept self.now.rows name.now }
        ensures spelling { IfSome result (λ value. HasSpelling (val_of value)) }
    {
        let rows = &self.rows;
        cell_of_both(rows, &Others, &Counted { rows }, name, now)
    }

    /// Begins a Set at a moment in milliseconds, with which nothing is wrong: what isn't active any more by it is still counted.
    pub fn assign<A: Assigns>(&mut self, set: &A, now: u32)
        requires fine { AreFine self.old (A.bindings set.now) }
        ensures begun { (settings : Settings) (journal : Journal) (values : Assignments) → Stands self.old settings journal
            → ((name : List ℕ) → value_given values name ≡ value_given (A.bindings set.now) name)
            → HasBegun self.new settings (assigns now values ∷ journal) }
        ensures frames { self.new.frames ≡ self.old.frames }
        ensures last { self.new.last ≡ now }
    {
        prove!(self.rows.len() <= 32);
        self.rows.commit(set);
        self.rows.change_each(&Resting { now });
        self.last = now;
    }

    /// Completes a Set that was begun, once the directory has done it: what isn't active any more isn't counted any more.
    pub fn sift(&mut self, directory: &Directory)
        ensures stands { (settings : Settings) (journal : Journal) → IsDirectory directory.now journal → HasBegun self.old settings journal
            → Stands self.new settings journal }
        ensures frames { self.new.frames ≡ self.old.frames }
        ensures last { self.new.last ≡ self.old.last }
    {
        self.rows.change_each(&Sifting {
            protocols: directory.protocols(),
        });
    }
}
