// The directory, as a group of objects.
use crate::directory::{CHANGE_OBJECTS, Directory};
use crate::row::DIRECTORY_OBJECTS;
use rm_group::{
    Assigns, Commits, Group, Look, Passing, Storeless, TableObjects, Tables, Unfired, Unsampled,
};
use rm_model::Verdict;
use rm_val::{Oid, Value};

/// The tables of the group.
const OBJECTS: &[TableObjects] = &[DIRECTORY_OBJECTS, CHANGE_OBJECTS];

impl Group for Directory {
    ghost use Rattle.rm_dir.specs.Finite.{directory_finite};
    ghost use Rattle.rm_dir.specs.Group.{AreFine, Stands};
    ghost use Rattle.rm_dir.specs.Judging.{directory_alone, directory_together};
    ghost use Rattle.rm_dir.specs.Tables.{directory_cells};

    ghost stands = { λ s settings journal. Stands s journal };

    ghost clock = { λ s. 0 };

    ghost askable = { λ s moment. Unit {0} };

    ghost frames = { λ s. 0 };

    ghost cells = { λ settings journal now. directory_cells journal };

    ghost alone = { directory_alone };

    ghost together = { λ settings journal now readings bindings place. directory_together journal bindings place };

    ghost accepts = { λ s now. AreFine s };

    ghost finite = { λ settings journal now. directory_finite journal };

    fn least() -> &'static [u32] {
        CHANGE_OBJECTS.entry
    }

    fn cell(&self, name: &Oid, _now: u32) -> Option<Value<'_>> {
        self.shown_at(name)
    }

    fn after(&self, name: &Oid, _now: u32, out: &mut Oid) -> Option<Value<'_>> {
        self.shown_after(name, out)
    }

    fn judge_alone<A: Assigns>(&self, set: &A) -> Verdict {
        self.judge_bindings(set)
    }

    fn judge_rows<A: Assigns, L: Look>(&self, set: &A, _now: u32, _look: &L) -> Verdict {
        self.judge_together(set)
    }
}

impl Storeless for Directory {}

impl Commits for Directory {
    ghost use Rattle.std.specs.Prelude.{◌≡◌, ℕ, ◌≤◌, List, ◌∷◌};
    ghost use Rattle.rm_model.specs.Counting.{Counting};
    ghost use Rattle.rm_model.specs.Journal.{Assignments, Journal, assigns, last_moment, value_given};
    ghost use Rattle.rm_dir.specs.Group.{AreFine, Stands};
    ghost use Rattle.rm_dir.specs.Paths.{DoStay, KeepSlots};

    /// Does a Set (`Commits::commit`). Protocols that stay active stay in their slots.
    fn commit<A: Assigns>(&mut self, set: &A, now: u32)
        requires ready { AreFine self.old (A.bindings set.now) }
        ensures stands { (settings : Counting) (journal : Journal) (values : Assignments) → Stands self.old journal → last_moment journal ≤ now
            → Unit {0} → ((name : List ℕ) → value_given values name ≡ value_given (A.bindings set.now) name)
            → Stands self.new (assigns now values ∷ journal) }
        ensures stay { DoStay self.new.rows self.old.protocols self.new.protocols }
        ensures keeps { (journal : Journal) → Stands self.new journal → KeepSlots journal self.old.protocols self.new.protocols }
    {
        self.assign(set, now);
    }
}

impl Tables for Directory {
    ghost use Rattle.std.specs.Prelude.{[], ◌∷◌};
    ghost use Rattle.rm_model.specs.Cells.{cells_of};
    ghost use Rattle.rm_group.specs.Listed.{is_settable, of_table, with_table, beside_listed};
    ghost use Rattle.rm_dir.specs.ProtocolDir.{protocol_dir};
    ghost use Rattle.rm_dir.specs.Tables.{directory_columns, directory_tables, directory_table, change_table, change_listed};

    ghost tables = { directory_tables };

    ghost can_be_set = { is_settable protocol_dir };

    fn tables() -> &'static [TableObjects] {
        OBJECTS
    }

    ghost shows_listed = { λ settings journal now.
        with_table (directory_table journal) (change_listed ∷ []) (cells_of (change_table journal)) (of_table (change_table journal)) };

    ghost refuses_listed = { beside_listed protocol_dir directory_columns change_listed };
}

// A frame makes no difference to the directory itself.
impl Unfired for Directory {
    fn take_frame(&mut self, _passing: &Passing<'_>) {}
}

impl Unsampled for Directory {
    ghost use Rattle.rm_dir.specs.Idle.{stands_sampled};

    ghost begins = { λ s settings earlier moment alarm reading stands later asked. stands_sampled s earlier moment alarm reading stands };
}
