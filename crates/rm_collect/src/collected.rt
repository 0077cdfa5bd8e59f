// What a control row collects.
ghost use Rattle.std.specs.Prelude.{◌≡◌, ℕ, ◌<◌, ◌≤◌, List, [], ◌∷◌, length, Some, true, false, IfSome, OnSome, IfNone};
ghost use Rattle.std.specs.Option.{option_map};
ghost use Rattle.rm_val.specs.Val.{val_of};
ghost use Rattle.rm_val.specs.Spellable.{IsSpellable, HasSpelling};
ghost use Rattle.rm_model.specs.Cells.{IsNext};
ghost use Rattle.rm_model.specs.ControlTable.{row_index};
ghost use Rattle.rm_model.specs.ControlRows.{no_rows, is_valid, state_of};
ghost use Rattle.rm_model.specs.Counting.{Counting};
ghost use Rattle.rm_model.specs.Journal.{Assignments, Frame, Journal, assigns};
ghost use Rattle.rm_model.specs.Judgement.{IsFirstFault};
ghost use Rattle.rm_group.specs.Alone.{alone_at};
ghost use Rattle.rm_group.specs.Least.{AreFrom};
ghost use Rattle.rm_group.specs.Listed.{tables_of};
ghost use Rattle.rm_group.specs.declared.bounds.TheConstants.{MOST_FRAMES, MOST_OCTETS};
ghost use Rattle.rm_status.specs.declared.row.Row.{Row};
ghost use Rattle.rm_status.specs.Rows.{row_in};
ghost use Rattle.rm_pool.specs.declared.slot.Slot.{Slot};
ghost use Rattle.rm_pool.specs.Pools.{Allowed, AreNumbered, Became};
ghost use Rattle.rm_pool.specs.Slots.{part_in};
ghost use Rattle.rm_collect.specs.Passed.{Passed, passed};
ghost use Rattle.rm_collect.specs.Rows.{IsFresh};
ghost use Rattle.rm_collect.specs.Collection.{Collection, IsLawful};

use crate::row_columns::RowColumns;
use crate::sampled_tables::SampledTables;
use rm_columns::ControlRow;
use rm_group::{Assigns, Passing, TableObjects};
use rm_model::Verdict;
use rm_pool::{Part, Pool};
use rm_status::Row;
use rm_val::{Oid, Value};

/// What a valid row of a control table collects of the frames since it became valid, as the history of a data source. The other tables
/// show it by that, and by the columns of the row as they are set.
pub trait Collected: Part {
    /// The columns of a row of the control table that can be set.
    type Columns: ControlRow;

    /// What all rows share, as how many hosts each has room for.
    type Shared: Drop;

    /// What a frame is judged to be before it passes, as a channel that accepts it. `()` where its facts are all that counts (`ByFacts`).
    type Judged;

    /// What the rows collect, and what the tables show of it.
    ghost collection: { Collection Self.Columns Self Self.Shared Self.Judged };

    /// Begins what a row with these columns collects, in storage that is spare, by the Set of a moment in milliseconds by which the row
    /// becomes valid.
    fn begin(&mut self, columns: &Self::Columns, shared: &Self::Shared, now: u32)
        requires in_range { collection.in_range columns.now }
        ensures fits { (frames : ℕ) → collection.fits now frames self.new }
        ensures begun { (settings : Counting) (values : Assignments) (earlier : Journal) (row : ℕ) → collection.suits shared.now settings earlier
            → is_valid (state_of Self.Columns.form.table no_rows earlier (row_index Self.Columns.form.table row)) ≡ false
            → is_valid (state_of Self.Columns.form.table no_rows (assigns now values ∷ earlier) (row_index Self.Columns.form.table row)) ≡ true
            → IsFresh Self.Columns.form columns.now (assigns now values ∷ earlier) row → collection.has_begun settings (assigns now values) earlier row self.new };

    /// A frame passes that was judged to be these, after so many frames: each row takes it.
    fn pass(parts: &mut Pool<Self>, judged: &[Self::Judged], passing: &Passing<'_>, before: u32)
        requires length { passing.now.facts.length ≤ MOST_OCTETS }
        requires within { collection.within (passed passing.now.facts passing.now.octets.now passing.now.number passing.now.moment) }
        requires room { before < MOST_FRAMES }
        requires fits { (row : ℕ) → Allowed (collection.fits passing.now.moment before) (part_in parts.old row) }
        ensures parts { (row : ℕ) → Became (collection.takes judged.now (passed passing.now.facts passing.now.octets.now passing.now.number passing.now.moment) before) (part_in parts.old row) (part_in parts.new row) }
        ensures size { length parts.new ≡ length parts.old };

    /// What a column of the control table shows that can't be set, the index left out, in a row, by the row's number.
    fn other(
        parts: &Pool<Self>,
        index: u32,
        row: &Row<Self::Columns>,
        column: u32,
    ) -> Value<'static>
        ensures value { (rows : List (Row Self.Columns)) → row_in rows index ≡ Some row.now → val_of result ≡ collection.others rows parts.now column (row_index Self.Columns.form.table index) }
        ensures spelling { HasSpelling (val_of result) };

    /// The value of the cell with that name in the other tables, at a moment in milliseconds. None where they have no such cell.
    fn inner_cell<'a, R: RowColumns<Self::Columns>>(
        rows: &'a R,
        parts: &'a Pool<Self>,
        name: &Oid,
        now: u32,
    ) -> Option<Value<'a>>
        requires numbered { AreNumbered parts.now }
        ensures value { option_map val_of result ≡ collection.inner (R.rows rows.now) parts.now now name.now }
        ensures spelling { IfSome result (λ value. HasSpelling (val_of value)) };

    /// The value of the cell with the least name above that one (RFC 1905, section 4.2.2), in the other tables, at a moment in
    /// milliseconds. Its name is put into `out`. None where no cell of them has a greater name; `out` is then as before.
    fn inner_after<'a, R: RowColumns<Self::Columns>>(
        rows: &'a R,
        parts: &'a Pool<Self>,
        name: &Oid,
        now: u32,
        out: &mut Oid,
    ) -> Option<Value<'a>>
        requires numbered { AreNumbered parts.now }
        ensures next { IsNext (collection.inner (R.rows rows.now) parts.now now) name.now (option_map val_of result) out.new }
        ensures stays { IfNone result (out.new ≡ out.old) }
        ensures name_spelling { OnSome result (IsSpellable out.new) }
        ensures spelling { IfSome result (λ value. HasSpelling (val_of value)) };

    /// Where the other tables begin: no cell of them has a name below this one.
    fn inner_least() -> &'static [u32]
        ensures from { (rows : List (Row Self.Columns)) (parts : List (Slot Self)) (now : ℕ) → AreFrom result.now (collection.inner rows parts now) }
        ensures fits { length result.now ≤ 128 };

    /// Which of the tables alarms may sample.
    fn sampled_tables() -> SampledTables
        ensures { result ≡ collection.sampled_tables };

    /// The first pass of a Set: each binding alone that isn't of the control table.
    fn judge_inner<A: Assigns>(set: &A) -> Verdict
        ensures { let bindings = A.bindings set.now in IsFirstFault (length bindings) (alone_at collection.inner_alone bindings) result };

    /// The tables, the control table first.
    fn tables() -> &'static [TableObjects]
        ensures { tables_of result.now ≡ collection.tables };

    /// Where the tables begin: no cell of them has a name below this one.
    fn least() -> &'static [u32]
        ensures from { (settings : Counting) (journal : Journal) (now : ℕ) → AreFrom result.now (collection.cells settings journal now) }
        ensures fits { length result.now ≤ 128 };

    /// What holds of it.
    ghost laws: { IsLawful Self.Columns.form collection };

    /// What the columns show has a spelling.
    ghost spelled: { (columns : Self.Columns) → Self.Columns.spelled columns };
}

/// What valid rows collect by the facts of frames alone: nothing is judged of a frame before it passes.
pub trait ByFacts: Collected {
    /// To be judged to be nothing is right for each frame.
    ghost unjudged: { (settings : Counting) (journal : Journal) (frame : Frame) → Self.Collected.collection.judges settings journal frame [] };

    /// Rows may take each frame.
    ghost all_within: { (seen : Passed) → Self.Collected.collection.within seen };
}
