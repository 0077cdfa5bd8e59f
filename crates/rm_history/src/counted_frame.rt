// A frame that histories count.
ghost use Rattle.std.specs.Prelude.{◌≤◌};
ghost use Rattle.rm_group.specs.declared.bounds.TheConstants.{MOST_OCTETS};

use crate::run::Run;
use rm_ether::Adding;
use rm_group::MOST_OCTETS;
use rm_pool::Change;

/// A frame that each history counts.
#[derive(Drop)]
pub(crate) struct CountedFrame<'a> {
    /// What it adds to the sums of a bucket.
    pub adding: Adding<'a>,
    /// The moment at which it passed, in milliseconds.
    pub moment: u32,
    ghost length: { adding.facts.now.length ≤ MOST_OCTETS },
}

impl Change<Run> for CountedFrame<'_> {
    ghost use Rattle.rm_history.specs.Runs.{IsReady, Counts};

    ghost allows = { λ s row run. IsReady s.moment run };

    ghost makes = { λ s row run new. Counts s.adding.facts.now s.moment run new };

    fn change(&self, _row: u32, run: &mut Run) {
        run.frame(&self.adding, self.moment);
    }
}
