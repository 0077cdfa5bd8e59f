ghost use Rattle.std.specs.Prelude.{◌≡◌, [], ◌∷◌, ◌++◌, OnOk, OnErr};
ghost use Rattle.rm_edge.specs.Outside.{one_more};
ghost use Rattle.rm_edge.specs.Clock.{Tells};
ghost use Rattle.rm_edge.specs.ListClock.{free_call, moment_after, told_by};

use crate::outside::Clock;
use rm_val::NoMemory;
use std::alloc::Global;
use std::marker::Model;

// A moment in milliseconds, and after how many calls the first one tells it.
#[derive(Clone, Copy, Drop)]
pub struct Timed {
    pub moment: u32,
    pub after: u64,
}

/// A clock in memory, which tells the moments given one after the other, and then the last one again; 0 where none was given.
/// It counts its calls in 64 bits, and shows the moments told as long as that count is below its greatest value.
#[derive(Drop)]
pub struct ListClock {
    moments: Vec<Timed>,
    calls: u64,
    next: u64,
}

impl Model for ListClock {
    ghost use Rattle.rm_edge.specs.ListClock.{ClockState};

    ghost Value = { ClockState };

    ghost view = { λ c. record { moments = c.moments.items; calls = c.calls; next = c.next } };
}

impl ListClock {
    /// A clock with no moment, which has told none.
    pub fn new(alloc: Global) -> ListClock
        ensures { result ≡ record { moments = []; calls = 0; next = 0 } }
    {
        ListClock {
            moments: Vec::new(alloc),
            calls: 0,
            next: 0,
        }
    }

    /// Gives one more moment, in milliseconds: it is told by the first call to come for which none is there yet. After NoMemory the
    /// clock is as before.
    pub fn add(&mut self, moment: u32) -> Result<(), NoMemory>
        ensures ok { OnOk result (self.new ≡ record self.old {
          moments = self.old.moments ++ record { moment = moment; after = free_call self.old } ∷ [];
          next = one_more (free_call self.old);
        }) }
        ensures told { told_by self.new ≡ told_by self.old }
        ensures err { OnErr result (self.new ≡ self.old) }
    {
        let after = self.next.max(self.calls);
        self.moments
            .push(Timed { moment, after })
            .map_err(|_| NoMemory)?;
        self.next = after.saturating_add(1);
        Ok(())
    }
}

impl Clock for ListClock {
    ghost told = { λ c. told_by c };

    fn now(&mut self) -> u32
        ensures told { Tells (told_by self.old) (told_by self.new) result }
        ensures moment { result ≡ moment_after self.old.moments self.old.calls }
        ensures calls { self.new ≡ record self.old { calls = one_more self.old.calls } }
    {
        let moment = moment_of(&self.moments, self.calls);
        self.calls = self.calls.saturating_add(1);
        moment
    }
}

// What the call after so many tells.
fn moment_of(moments: &[Timed], calls: u64) -> u32
    ensures { result ≡ moment_after moments.now calls }
{
    moments
        .iter()
        .rev()
        .find(|timed| timed.after <= calls)
        .map_or(0, |timed| timed.moment)
}
