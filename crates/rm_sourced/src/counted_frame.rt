// A frame that the rows of data sources take.
ghost use Rattle.std.specs.Prelude.{◌+◌, ◌<◌, ◌^◌};

use crate::source_rows::SourceRows;
use crate::sourced::Sourced;
use rm_evicting::Key;
use rm_pool::Change;
use rm_proto::Facts;

/// A frame that the rows of each data source take.
#[derive(Drop)]
pub(crate) struct CountedFrame<'a> {
    /// What is known of it.
    pub facts: &'a Facts,
    /// The moment at which it passed, in milliseconds.
    pub moment: u32,
    /// The stamp of its first reference.
    pub stamp: u64,
    ghost fits: { stamp + 2 < 2 ^ 64 },
}

impl<K: Key, R: SourceRows<K>> Change<Sourced<K, R>> for CountedFrame<'_> {
    ghost use Rattle.rm_sourced.specs.Sourcing.{IsReady, Takes};

    ghost allows = { λ s row part. IsReady R.sourcing s.stamp s.moment part.rows };

    ghost makes = { λ s row part new. Takes R.sourcing s.facts.now s.stamp s.moment part new };

    fn change(&self, _row: u32, part: &mut Sourced<K, R>) {
        part.take(self.facts, self.moment, self.stamp);
    }
}
