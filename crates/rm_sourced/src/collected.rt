// What the rows of such a control table collect.

use crate::counted_frame::CountedFrame;
use crate::of_source::OfSource;
use crate::source_rows::SourceRows;
use crate::sourced::Sourced;
use rm_collect::{ByFacts, ByItself, Collected, RowColumns, SampledTables};
use rm_evicting::Key;
use rm_group::{Assigns, Passing, TableObjects};
use rm_keyed::{
    KeyTable, PartRows, SourceColumns, SourceTable, cell_of_two, judge_two, next_of_two,
    source_value,
};
use rm_model::Verdict;
use rm_pool::Pool;
use rm_status::Row;
use rm_val::{Oid, Value};

#[tactic(auto, unfolding(crate::specs::Collection::source_collection, rm_keyed::specs::SourceControl::source_rows))]
impl<K: Key, R: SourceRows<K>> Collected for Sourced<K, R> {
    ghost use Rattle.rm_sourced.specs.Shown.{shown_by};
    ghost use Rattle.rm_sourced.specs.Collection.{source_collection};
    ghost use Rattle.rm_sourced.specs.Lawful.{source_lawful};

    type Columns = SourceColumns<R>;

    type Shared = R::Room;

    type Judged = ();

    ghost collection = { source_collection R.SourceTable.entry R.sourcing (shown_by R.First.key_at R.First.is_open R.First.value_of R.First.entry R.First.columns R.first_index R.value) (shown_by R.Second.key_at R.Second.is_open R.Second.value_of R.Second.entry R.Second.columns R.second_index R.value) R.room_in };

    fn begin(&mut self, columns: &SourceColumns<R>, room: &R::Room, _now: u32) {
        self.rows.begin(room);
        self.source = columns.source;
    }

    // A frame has two stamps, for two references.
    fn pass(parts: &mut Pool<Sourced<K, R>>, _judged: &[()], passing: &Passing<'_>, before: u32) {
        let stamp = 2 * u64::from(before);
        parts.change_each(&CountedFrame {
            facts: &passing.facts,
            moment: passing.moment,
            stamp,
        });
    }

    fn other(
        parts: &Pool<Sourced<K, R>>,
        index: u32,
        _row: &Row<SourceColumns<R>>,
        column: u32,
    ) -> Value<'static> {
        let rows = match parts.get(index) {
            Some(part) => Some(part.rows.entered()),
            None => None,
        };
        source_value(rows, column)
    }

    fn inner_cell<'a, C: RowColumns<SourceColumns<R>>>(
        _rows: &'a C,
        parts: &'a Pool<Sourced<K, R>>,
        name: &Oid,
        now: u32,
    ) -> Option<Value<'a>> {
        let first = PartRows::<OfSource<R::First>> { parts };
        let second = PartRows::<OfSource<R::Second>> { parts };
        cell_of_two(&first, &second, name, now)
    }

    fn inner_after<'a, C: RowColumns<SourceColumns<R>>>(
        _rows: &'a C,
        parts: &'a Pool<Sourced<K, R>>,
        name: &Oid,
        now: u32,
        out: &mut Oid,
    ) -> Option<Value<'a>> {
        let first = PartRows::<OfSource<R::First>> { parts };
        let second = PartRows::<OfSource<R::Second>> { parts };
        next_of_two(first, second, name, now, out)
    }

    fn inner_least() -> &'static [u32] {
        R::First::objects().entry
    }

    fn sampled_tables() -> SampledTables {
        SampledTables::AllTables
    }

    fn judge_inner<A: Assigns>(set: &A) -> Verdict {
        judge_two::<PartRows<'_, OfSource<R::First>>, PartRows<'_, OfSource<R::Second>>, A>(set)
    }

    fn tables() -> &'static [TableObjects] {
        R::tables()
    }

    fn least() -> &'static [u32] {
        R::entry()
    }

    ghost laws = { source_lawful R.SourceTable.entry R.sourcing _ _ R.laws R.room_in };

    ghost spelled = { λ columns. tt };
}

impl<K: Key, R: SourceRows<K>> ByFacts for Sourced<K, R> {
    ghost use Rattle.rm_sourced.specs.Lawful.{unjudged, all_within};

    ghost unjudged = { unjudged R.SourceTable.entry R.sourcing _ _ R R.room_in };

    ghost all_within = { all_within R.SourceTable.entry R.sourcing _ _ R R.room_in };
}

impl<K: Key, R: SourceRows<K>> ByItself for Sourced<K, R> {
    ghost use Rattle.rm_sourced.specs.Lawful.{by_itself};

    ghost by_itself = { by_itself R.SourceTable.entry R.sourcing _ _ R R.room_in };
}
