// The acts that filters and channels take.
use crate::changes::{Counting, Taking};
use crate::filters::Filters;
use crate::judging::judge;
use rm_acts::Firing;
use rm_group::{NeverDue, Passing, Steps, Unsampled};

impl Steps for Filters {
    ghost use Rattle.rm_filter.specs.Acts.{ended};
    ghost use Rattle.rm_filter.specs.Standing.{IsUnderWay};

    ghost under_way = { IsUnderWay };

    fn pass(&mut self, passing: &Passing<'_>) {
        prove!(self.tables.second.rows.len() <= 32);
        judge(
            &mut self.accepting,
            &self.tables.first.rows,
            &self.tables.second.rows,
            &passing.facts,
            passing.octets,
        );
        let accepting = self.accepting.as_slice();
        self.tables.second.rows.change_each(&Counting { accepting });
    }

    fn take(&mut self, firing: &Firing, _moment: u32) {
        self.tables.second.rows.change_each(&Taking { firing });
    }

    ghost ends = { ended };
}

impl Unsampled for Filters {
    ghost use Rattle.rm_filter.specs.Acts.{begun};

    ghost begins = { λ s settings earlier moment alarm reading stands later asked. begun s settings earlier moment alarm reading stands };
}

impl NeverDue for Filters {
    ghost always_asked = { λ s moment. tt };
}
