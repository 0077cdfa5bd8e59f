// The group statistics.
ghost use Rattle.std.specs.Prelude.{◌≡◌, ◌+◌, ◌<◌, ◌≤◌, [], ◌∷◌};

use crate::cell::Counters;
use crate::change::{Adding, Resting};
use crate::row::{ETHER_OBJECTS, StatisticsRow};
use rm_group::{
    Assigns, Commits, Group, Look, MOST_FRAMES, NeverDue, Passing, Readable, Storeless,
    TableObjects, Tables, Unfired, Unsampled,
};
use rm_model::{INTERFACES, State, Verdict};
use rm_proto::Facts;
use rm_status::Controls;
use rm_val::{Oid, Value};

/// The tables of the group.
const OBJECTS: &[TableObjects] = &[ETHER_OBJECTS];

/// The statistics of interfaces: etherStatsTable (RFC 1757, section 5). Each interface has a row that is valid from before the
/// first act.
#[derive(Drop)]
pub struct Ether {
    rows: Controls<StatisticsRow>,
    // How many frames it was given.
    frames: u32,
    // The moment of the last frame or Set, in milliseconds.
    last: u32,
}

impl Ether {
    ghost use Rattle.rm_model.specs.Counting.{Counting};
    ghost use Rattle.rm_model.specs.Journal.{Journal, Frame, passes};
    ghost use Rattle.rm_model.specs.FrameFacts.{frame_facts};
    ghost use Rattle.rm_ether.specs.Group.{Stands, frames_given, last_given};

    /// The statistics of so many interfaces before the first frame, of which each has a row of the monitor, with its number.
    pub fn new(interfaces: u32) -> Ether
        requires few { interfaces ≤ INTERFACES }
        ensures stands { (settings : Counting) → settings.interfaces ≡ interfaces → Stands result settings [] }
        ensures frames { frames_given result ≡ 0 }
        ensures last { last_given result ≡ 0 }
    {
        let mut rows = Controls::new();
        for number in 1..=interfaces {
            rows.insert(number, State::Valid, StatisticsRow::of_monitor(number));
        }
        Ether {
            rows,
            frames: 0,
            last: 0,
        }
    }

    /// Counts a frame that passed at a moment, in milliseconds, which isn't below the one given last. Fewer than `MOST_FRAMES`
    /// frames were given before.
    pub fn frame(&mut self, facts: &Facts, moment: u32)
        requires later { last_given self.old ≤ moment }
        requires room { frames_given self.old < MOST_FRAMES }
        ensures stands { (settings : Counting) (journal : Journal) (frame : Frame) → Stands self.old settings journal → facts.now ≡ frame_facts settings frame
            → frame.moment ≡ moment → Stands self.new settings (passes frame ∷ journal) }
        ensures frames { frames_given self.new ≡ frames_given self.old + 1 }
        ensures last { last_given self.new ≡ moment }
    {
        let adding = Adding::of(facts);
        self.rows.change_each(&adding);
        self.frames += 1;
        self.last = moment;
    }
}

impl Group for Ether {
    ghost use Rattle.rm_model.specs.Cells.{cells_of};
    ghost use Rattle.rm_model.specs.Judgement.{second_pass, rows_after};
    ghost use Rattle.rm_ether.specs.EtherStats.{ether_table, ether_stats, ether_beginning};
    ghost use Rattle.rm_ether.specs.Group.{Stands, frames_given, last_given, ether_alone, AreFine};
    ghost use Rattle.rm_ether.specs.FiniteLaws.{ether_finite};

    ghost stands = { Stands };

    ghost clock = { last_given };

    ghost askable = { λ s moment. Unit {0} };

    ghost frames = { frames_given };

    ghost cells = { λ settings journal now. cells_of (ether_table settings journal) };

    ghost alone = { ether_alone };

    ghost together = { λ settings journal now readings bindings place. second_pass ether_stats (rows_after ether_stats (ether_beginning settings) journal) bindings place };

    ghost accepts = { λ s now. AreFine s };

    ghost finite = { λ settings journal now. ether_finite settings journal };

    fn least() -> &'static [u32] {
        ETHER_OBJECTS.entry
    }

    fn cell(&self, name: &Oid, _now: u32) -> Option<Value<'_>> {
        self.rows.cell(&Counters, name)
    }

    fn after(&self, name: &Oid, _now: u32, out: &mut Oid) -> Option<Value<'_>> {
        self.rows.next_cell(&Counters, name, out)
    }

    fn judge_alone<A: Assigns>(&self, set: &A) -> Verdict {
        self.rows.judge_alone(set)
    }

    fn judge_rows<A: Assigns, L: Look>(&self, set: &A, _now: u32, _look: &L) -> Verdict {
        self.rows.judge_rows(set)
    }
}

impl Storeless for Ether {}

impl Commits for Ether {
    fn commit<A: Assigns>(&mut self, set: &A, now: u32) {
        prove!(self.rows.len() <= 32);
        self.rows.commit(set);
        self.rows.change_each(&Resting);
        self.last = now;
    }
}

impl Tables for Ether {
    ghost use Rattle.rm_ether.specs.Columns.{ether_columns};
    ghost use Rattle.rm_ether.specs.EtherStats.{ether_stats, ether_table};
    ghost use Rattle.rm_ether.specs.Group.{ether_tables};
    ghost use Rattle.rm_group.specs.Listed.{is_settable, of_table, control_listed};

    ghost tables = { ether_tables };

    ghost can_be_set = { is_settable ether_stats };

    fn tables() -> &'static [TableObjects] {
        OBJECTS
    }

    ghost shows_listed = { λ settings journal now. of_table (ether_table settings journal) };

    ghost refuses_listed = { control_listed ether_stats ether_columns };
}

impl Readable for Ether {
    ghost use Rattle.rm_model.specs.Cells.{cells_of};
    ghost use Rattle.rm_ether.specs.EtherStats.{ether_table};
    ghost use Rattle.rm_ether.specs.Shown.{rows_table};
    ghost use Rattle.std.specs.Prelude.{refl};

    ghost sampleable = { λ settings journal now. cells_of (ether_table settings journal) };

    ghost shown = { λ s now. cells_of (rows_table s.rows) };

    fn value(&self, name: &Oid, _now: u32) -> Option<Value<'_>> {
        self.rows.cell(&Counters, name)
    }

    fn shows(&self, _now: u32) {
        prove!(self.rows.len() <= 32);
    }

    ghost recurring = { λ settings one other journal alike now name. refl };
}

impl Unfired for Ether {
    fn take_frame(&mut self, passing: &Passing<'_>) {
        self.frame(&passing.facts, passing.moment);
    }
}

impl Unsampled for Ether {
    ghost use Rattle.rm_ether.specs.Sampled.{ether_sampled};

    ghost begins = { λ s settings earlier moment alarm reading stands later asked. ether_sampled settings earlier moment alarm reading s stands };
}

impl NeverDue for Ether {
    ghost always_asked = { λ s moment. tt };
}
