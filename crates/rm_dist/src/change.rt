// What a frame makes of what each row has counted.
ghost use Rattle.rm_dist.specs.Counting.{counting};
ghost use Rattle.rm_dist.specs.Resting.{resting, sifting};

use crate::counts::Counts;
use crate::row::{DistributionRow, Tally};
use rm_model::State;
use rm_path::Protocols;
use rm_proto::Facts;
use rm_status::Change;

/// A frame, with the local indexes of the protocols on its path: each row that is active counts it where it is good, and of its interface.
#[derive(Drop)]
pub(crate) struct Counting<'a> {
    /// The facts of the frame.
    pub facts: &'a Facts,
    /// The local indexes.
    pub locals: &'a [u32],
}

impl Change<DistributionRow> for Counting<'_> {
    ghost changed = { λ s index state row. counting s.facts.now s.locals.now row };

    fn change(&self, _index: u32, _state: State, columns: &mut DistributionRow) {
        let counts = self.facts.good && columns.source == self.facts.interface;
        if let Some(tally) = &mut columns.tally {
            if counts {
                tally.counts.add_all(self.locals, self.facts.length);
            }
        }
    }
}

/// A Set of a moment, in milliseconds: rows that have become active begin to count, and those that aren't active any more count nothing.
#[derive(Clone, Copy)]
pub(crate) struct Resting {
    /// The moment.
    pub now: u32,
}

impl Change<DistributionRow> for Resting {
    ghost changed = { λ s index state row. resting s.now state row };

    fn change(&self, _index: u32, state: State, columns: &mut DistributionRow) {
        match state {
            State::Valid => {
                if columns.tally.is_none() {
                    columns.tally = Some(Tally {
                        since: self.now,
                        counts: Counts::new(),
                    });
                }
            }
            _ => columns.tally = None,
        }
    }
}

/// Of the protocols that a row has counted those last that are in slots.
#[derive(Drop)]
pub(crate) struct Sifting<'a> {
    /// The protocols that are active.
    pub protocols: &'a Protocols,
}

impl Change<DistributionRow> for Sifting<'_> {
    ghost changed = { λ s index state row. sifting s.protocols.now row };

    fn change(&self, _index: u32, _state: State, columns: &mut DistributionRow) {
        if let Some(tally) = &mut columns.tally {
            tally.counts.sift(self.protocols);
        }
    }
}
