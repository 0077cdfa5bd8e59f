// Filters, channels and buffers, as one group of objects: what the pair of them does.
use crate::channels::{Channels, Groups};
use rm_group::{Assigns, Commits, Denied, Group, Look, NeverDue, Objects, Readable, Stores};
use rm_model::Verdict;
use rm_val::{Oid, Value};
use std::alloc::Global;

impl Group for Channels {
    ghost use Rattle.rm_channels.specs.Group.{Stands, AreFine, channel_cells, channel_alone, channel_together, frames_given, last_given};
    ghost use Rattle.rm_channels.specs.Laws.{all_finite};

    ghost stands = { Stands };

    ghost clock = { last_given };

    ghost askable = { λ s moment. Unit {0} × Unit {0} };

    ghost frames = { frames_given };

    ghost cells = { channel_cells };

    ghost alone = { channel_alone };

    ghost together = { λ settings journal now readings. channel_together journal };

    ghost accepts = { λ s now. AreFine s };

    ghost finite = { all_finite };

    fn least() -> &'static [u32] {
        Groups::least()
    }

    fn cell(&self, name: &Oid, now: u32) -> Option<Value<'_>> {
        self.groups.cell(name, now)
    }

    fn after(&self, name: &Oid, now: u32, out: &mut Oid) -> Option<Value<'_>> {
        self.groups.after(name, now, out)
    }

    fn judge_alone<A: Assigns>(&self, set: &A) -> Verdict {
        self.groups.judge_alone(set)
    }

    fn judge_rows<A: Assigns, L: Look>(&self, set: &A, now: u32, look: &L) -> Verdict {
        self.groups.judge_rows(set, now, look)
    }
}

impl Stores for Channels {
    ghost use Rattle.rm_channels.specs.Group.{ArePrepared, IsStocked, AreReleased, ChannelReserves};

    ghost stocked = { IsStocked };

    ghost reserves = { λ settings. ChannelReserves };

    ghost prepared = { λ s now. ArePrepared s };

    ghost released = { AreReleased };

    fn prepare<A: Assigns, L: Look>(
        &mut self,
        alloc: Global,
        set: &A,
        now: u32,
        look: &L,
    ) -> Result<(), Denied> {
        self.groups.prepare(alloc, set, now, look)
    }

    fn discard(&mut self) {
        self.groups.discard();
    }
}

impl Commits for Channels {
    fn commit<A: Assigns>(&mut self, set: &A, now: u32) {
        self.groups.commit(set, now);
    }
}

impl Objects for Channels {
    ghost use Rattle.rm_channels.specs.Group.{channel_objects, channel_settable};
    ghost use Rattle.rm_channels.specs.Laws.{all_listed, all_refused};

    ghost objects = { channel_objects };

    ghost settable = { channel_settable };

    ghost listed = { all_listed };

    ghost refused = { all_refused };

    fn has_object(name: &Oid) -> bool {
        Groups::has_object(name)
    }
}

impl Readable for Channels {
    ghost use Rattle.rm_channels.specs.Group.{channel_sampleable, shown};
    ghost use Rattle.rm_channels.specs.Laws.{all_recurring};

    ghost sampleable = { channel_sampleable };

    ghost shown = { shown };

    fn value(&self, name: &Oid, now: u32) -> Option<Value<'_>> {
        self.groups.value(name, now)
    }

    fn shows(&self, now: u32) {
        self.groups.shows(now);
    }

    ghost recurring = { all_recurring };
}

impl NeverDue for Channels {
    ghost always_asked = { λ s moment. (tt, tt) };
}
