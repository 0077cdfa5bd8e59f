// The acts that fire events.
ghost use Rattle.std.specs.Prelude.{◌≡◌, false, refl};
ghost use Rattle.rm_model.specs.Journal.{samples};
ghost use Rattle.rm_acts.specs.Fired.{is_set};
ghost use Rattle.rm_event.specs.Standing.{IsUnderWay};
ghost use Rattle.rm_event.specs.Acts.{begun, ended};

use crate::events::Events;
use rm_acts::Firing;
use rm_group::{NeverDue, Passing, Steps, Unsampled};

impl Steps for Events {
    ghost under_way = { λ s settings act earlier some. (is_set act ≡ false) × IsUnderWay s settings act earlier some };

    fn pass(&mut self, _passing: &Passing<'_>) {}

    fn take(&mut self, firing: &Firing, moment: u32) {
        self.fire(firing.event, moment);
    }

    ghost ends = { λ s settings act earlier under. ended s settings act earlier under.0 under.1 };
}

impl Unsampled for Events {
    ghost begins = { λ s settings earlier moment alarm reading stands later asked. (refl, begun s settings (samples moment alarm reading) earlier refl stands) };
}

impl NeverDue for Events {
    ghost always_asked = { λ s moment. tt };
}
