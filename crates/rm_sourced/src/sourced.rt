// What is kept of a control row that asks for what frames of a data source enter.
ghost use Rattle.std.specs.Prelude.{◌≡◌, ◌+◌, ◌/◌, ◌<◌, ◌^◌, List, ◌++◌};
ghost use Rattle.rm_evicting.specs.Mention.{Mention};
ghost use Rattle.rm_sourced.specs.Sourcing.{Means, IsReady, taken_from};

use crate::source_rows::SourceRows;
use rm_evicting::Key;
use rm_pool::Part;
use rm_proto::Facts;
use rm_val::NoMemory;
use std::alloc::Global;
use std::marker::PhantomData;

/// The rows that the frames of a data source entered for a control row.
#[derive(Drop)]
pub struct Sourced<K, R> {
    /// The interface whose frames it takes.
    pub source: u32,
    /// The rows.
    pub rows: R,
    // The keys of the rows: who names what is kept names these too.
    keys: PhantomData<K>,
}

impl<K, R: Part> Part for Sourced<K, R> {
    fn spare(alloc: Global) -> Result<Sourced<K, R>, NoMemory> {
        let rows = R::spare(alloc)?;
        Ok(Sourced {
            source: 0,
            rows,
            keys: PhantomData,
        })
    }
}

impl<K: Key, R: SourceRows<K>> Sourced<K, R> {
    /// Takes a frame that passed at a moment in milliseconds, where it is of the interface. Its first reference has this stamp, and a second
    /// one the next.
    pub fn take(&mut self, facts: &Facts, moment: u32, stamp: u64)
        requires ready { IsReady R.sourcing stamp moment self.old.rows }
        requires fits { stamp + 2 < 2 ^ 64 }
        ensures means { (mentions : List (Mention K R.Counts)) → Means R.sourcing mentions self.old.rows
            → Means R.sourcing (taken_from R.sourcing self.old.source stamp (moment / 10) facts.now ++ mentions) self.new.rows }
        ensures source { self.new.source ≡ self.old.source }
        ensures capacity { (R.sourcing.entered self.new.rows).rows.capacity ≡ (R.sourcing.entered self.old.rows).rows.capacity }
        ensures ready { IsReady R.sourcing (stamp + 2) moment self.new.rows }
    {
        if facts.interface == self.source {
            self.rows.take(facts, moment, stamp);
        }
    }
}
