// The reports, as a group that acts make a difference to.
use crate::reports::Reports;
use rm_group::{Passing, Unfired, Unsampled};

impl Unfired for Reports {
    fn take_frame(&mut self, passing: &Passing<'_>) {
        self.frame(&passing.facts, passing.moment);
    }
}

impl Unsampled for Reports {
    ghost use Rattle.rm_topn.specs.Sampled.{stands_sampled};

    ghost begins = { λ s settings earlier moment alarm reading stands later asked. stands_sampled settings earlier moment alarm reading later s asked stands };
}
