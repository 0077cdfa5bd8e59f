// Rows that frames of a data source enter.
ghost use Rattle.std.specs.Prelude.{◌≡◌, ◌+◌, ◌/◌, ◌<◌, ◌^◌, ℕ, List, [], ◌++◌};
ghost use Rattle.rm_val.specs.Val.{Val};
ghost use Rattle.rm_model.specs.Counting.{Counting};
ghost use Rattle.rm_model.specs.Journal.{Journal};
ghost use Rattle.rm_group.specs.Listed.{tables_of};
ghost use Rattle.rm_evicting.specs.Mention.{Mention};
ghost use Rattle.rm_sourced.specs.Sourcing.{Sourcing, Means, IsReady};
ghost use Rattle.rm_sourced.specs.Shown.{shown_by};
ghost use Rattle.rm_sourced.specs.Collection.{source_tables};
ghost use Rattle.rm_sourced.specs.Laws.{IsLawful};

use rm_evicting::Key;
use rm_group::TableObjects;
use rm_keyed::{Counts, KeyTable, Keyed, SourceTable};
use rm_pool::Part;
use rm_proto::Facts;

/// The rows that frames of a data source enter for a row of a control table, as the hosts that a row of hostControl holds, by
/// keys of theirs. They name the control table, and two tables show them.
pub trait SourceRows<K: Key>: SourceTable + Part {
    /// The first of the tables that show the rows, and the second.
    type First: KeyTable<Part = Self, Key = K>;

    type Second: KeyTable<Part = Self, Key = K>;

    /// What all control rows share: for how many rows each has room.
    type Room: Drop;

    /// What the mentions of a key add up to.
    type Counts: Counts;

    /// What frames enter.
    ghost sourcing: { Sourcing K Self.Counts Self };

    /// For how many rows there is room.
    ghost room_in: { Self.Room → ℕ };

    /// The index of a key in a control row after a journal, behind the number of that row: in the first table, and in the second.
    ghost first_index: { Counting → Journal → ℕ → K → List ℕ };

    ghost second_index: { Counting → Journal → ℕ → K → List ℕ };

    /// What a column of both shows of a key that a control row holds after a journal.
    ghost value: { Counting → Journal → ℕ → K → ℕ → Val };

    /// Begins anew, without rows.
    fn begin(&mut self, room: &Self::Room)
        ensures nothing { Means sourcing [] self.new }
        ensures capacity { (sourcing.entered self.new).rows.capacity ≡ room_in room.now }
        ensures ready { (stamp moment : ℕ) → IsReady sourcing stamp moment self.new };

    /// Takes a frame of the data source that passed at a moment in milliseconds. Its first reference has this stamp, and a second one the next.
    fn take(&mut self, facts: &Facts, moment: u32, stamp: u64)
        requires ready { IsReady sourcing stamp moment self.old }
        requires fits { stamp + 2 < 2 ^ 64 }
        ensures means { (mentions : List (Mention K Self.Counts)) → Means sourcing mentions self.old
            → Means sourcing (sourcing.mentioned stamp (moment / 10) facts.now ++ mentions) self.new }
        ensures capacity { (sourcing.entered self.new).rows.capacity ≡ (sourcing.entered self.old).rows.capacity }
        ensures ready { IsReady sourcing (stamp + 2) moment self.new };

    /// The rows by their keys.
    fn entered(&self) -> &Keyed<K, Self::Counts>
        ensures { result.now ≡ sourcing.entered self.now };

    /// The tables, the control table first.
    fn tables() -> &'static [TableObjects]
        ensures { tables_of result.now ≡ source_tables Self.SourceTable.entry sourcing (shown_by Self.First.key_at Self.First.is_open Self.First.value_of Self.First.entry Self.First.columns first_index value) (shown_by Self.Second.key_at Self.Second.is_open Self.Second.value_of Self.Second.entry Self.Second.columns second_index value) };

    /// What holds of them.
    ghost laws: { IsLawful Self.SourceTable.entry Self.sourcing (shown_by Self.First.key_at Self.First.is_open Self.First.value_of Self.First.entry Self.First.columns Self.first_index Self.value) (shown_by Self.Second.key_at Self.Second.is_open Self.Second.value_of Self.Second.entry Self.Second.columns Self.second_index Self.value) };
}
