// What is kept of a network row.

ghost use Rattle.std.specs.Prelude.{◌≡◌, ◌≤◌, length};
ghost use Rattle.rm_layers.specs.Applications.{AreApart};
ghost use Rattle.rm_upper.specs.Kept.{is_among, all_made};
ghost use Rattle.rm_upper.specs.Shown.{blank_row, gained_value, protocols};
ghost use Rattle.rm_upper.specs.Cells.{counted_by};

use crate::applications::{Applications, take_all};
use crate::counts::{Counted, Counts};
use crate::slots::{KeptApplication, Slot};
use rm_evicting::Blank;

/// What is kept of a network row: the tick of its first contribution, in hundredths of a second, what its contributions add up to, and in
/// each slot the application row of the protocol there, if it has one.
#[derive(Clone, Copy)]
pub struct NetworkRow<N: Copy, A: Copy> {
    // None before the first contribution.
    created: Option<u32>,
    sums: N,
    applications: Applications<A>,
}

impl<N: Counts> Blank for NetworkRow<N, N::Application> {
    ghost blank_value = { blank_row N.tally.blank };

    fn blank() -> NetworkRow<N, N::Application> {
        NetworkRow {
            created: None,
            sums: N::none(),
            applications: Applications::none(),
        }
    }

    fn empty(&mut self) {
        self.created = None;
        self.sums = N::none();
        self.applications.empty();
    }
}

impl<N: Counts> NetworkRow<N, N::Application> {
    /// Takes a contribution, which comes to the slots of the protocols on its path; no protocol has two. Tells how many application rows it
    /// makes.
    pub fn gain(
        &mut self,
        slots: &[Option<Slot>; 32],
        path: &[u32],
        stamp: u64,
        tick: u32,
        gain: &N,
    ) -> u32
        requires apart { AreApart (protocols slots.now) }
        ensures value { self.new ≡ gained_value N.tally slots.now path.now stamp tick self.old gain.now }
        ensures made { result ≡ all_made (is_among path.now) slots.now self.old.applications }
        ensures few { result ≤ 32 }
    {
        if self.created.is_none() {
            self.created = Some(tick);
        }
        self.sums.add(gain);
        take_all(&mut self.applications, slots, path, stamp, tick, gain)
    }

    /// What it shows, by the tick of its last contribution. None before its first one.
    pub fn shown(&self, tick: u32) -> Option<Counted<N>>
        ensures { result ≡ counted_by tick self.now.created self.now.sums }
    {
        match self.created {
            Some(created) => Some(Counted {
                created,
                tick,
                sums: self.sums,
            }),
            None => None,
        }
    }

    /// Its application rows, in slots.
    pub fn applications(&self) -> &[Option<KeptApplication<N::Application>>]
        ensures value { result.now ≡ self.now.applications }
        ensures each { length result.now ≡ 32 }
    {
        self.applications.as_slice()
    }
}
