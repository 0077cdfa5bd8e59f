// What frames and Sets make of the sums of each row.
ghost use Rattle.std.specs.Prelude.{◌≡◌};
ghost use Rattle.rm_ether.specs.Counted.{counted};
ghost use Rattle.rm_ether.specs.Standing.{sums_of};
ghost use Rattle.rm_ether.specs.StatisticsRows.{counting, resting};

use crate::row::StatisticsRow;
use crate::statistics::Statistics;
use rm_model::State;
use rm_proto::Facts;
use rm_status::Change;

/// What a frame adds to sums. Of the rows of etherStats each valid one counts it whose data source is the interface of the frame.
#[derive(Drop)]
pub struct Adding<'a> {
    /// The facts of the frame.
    pub facts: &'a Facts,
    /// What it adds to each sum, worked out once for all that count it.
    pub added: Statistics,
    ghost worked_out: { added ≡ sums_of (λ each. counted each facts.now) },
}

impl<'a> Adding<'a> {
    /// Of a frame with these facts.
    pub fn of(facts: &'a Facts) -> Adding<'a>
        ensures { result.facts.now ≡ facts.now }
    {
        Adding {
            facts,
            added: Statistics::of_frame(facts),
        }
    }
}

impl Change<StatisticsRow> for Adding<'_> {
    ghost changed = { λ s index state row. counting s.facts.now state row };

    fn change(&self, _index: u32, state: State, columns: &mut StatisticsRow) {
        match state {
            State::Valid => {
                if columns.source == self.facts.interface {
                    columns.statistics.add(&self.added);
                }
            }
            _ => {}
        }
    }
}

/// A row that isn't valid loses its sums.
#[derive(Clone, Copy)]
pub struct Resting;

impl Change<StatisticsRow> for Resting {
    ghost changed = { λ s index state row. resting state row };

    fn change(&self, _index: u32, state: State, columns: &mut StatisticsRow) {
        match state {
            State::Valid => {}
            _ => columns.statistics = Statistics::new(),
        }
    }
}
