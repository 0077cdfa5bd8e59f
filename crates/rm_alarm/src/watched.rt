// A group, and the alarms that sample its variables.
ghost use Rattle.std.specs.Prelude.{◌≡◌, ℕ, ◌<◌, ◌≤◌, ◌∷◌, Some};
ghost use Rattle.rm_model.specs.Counting.{Counting};
ghost use Rattle.rm_model.specs.Journal.{Journal, samples, last_moment};
ghost use Rattle.rm_acts.specs.Alarms.{sampled};
ghost use Rattle.rm_group.specs.Both.{StandAsOne};
ghost use Rattle.rm_alarm.specs.Group.{due_in};
ghost use Rattle.rm_alarm.specs.Left.{samples_left};
ghost use Rattle.rm_alarm.specs.Standing.{AreWhole};
ghost use Rattle.rm_alarm.specs.Watched.{ReadsFrom, number_read};

use crate::alarms::Alarms;
use rm_acts::Sampled;
use rm_group::{Both, Readable, Sight};

/// A group, and beside it the alarms that sample its variables, as one group. Where both have a variable of a name, the group's
/// counts.
pub type Watched<G> = Both<G, Alarms>;

/// Takes the sample of an alarm that is due at a moment, in milliseconds, at which the group may be asked, and tells what it comes
/// to. The row of an alarm whose variable is gone is removed. The group is as it was: the act begins for it without a call, and its firings are
/// still to be taken.
pub fn take_sample<G: Readable>(group: &mut Watched<G>, index: u32, moment: u32) -> Sampled
    requires { due_in group.old.second index ≡ Some moment }
    ensures watched { group.new.first ≡ group.old.first }
    ensures stands { (settings : Counting) (journal : Journal)
        → StandAsOne (G.stands group.old.first settings journal) (AreWhole group.old.second settings journal) (ReadsFrom G.sampleable settings)
        → last_moment journal ≤ moment → G.askable group.old.first moment
        → AreWhole group.new.second settings (samples moment index (number_read settings journal moment index) ∷ journal) }
    ensures result { (settings : Counting) (journal : Journal)
        → StandAsOne (G.stands group.old.first settings journal) (AreWhole group.old.second settings journal) (ReadsFrom G.sampleable settings)
        → last_moment journal ≤ moment → G.askable group.old.first moment
        → result ≡ sampled settings journal moment index (number_read settings journal moment index) }
    ensures fewer { (latest : ℕ) → moment ≤ latest
        → samples_left group.new.second latest < samples_left group.old.second latest }
{
    group.first.shows(moment);
    let sight = Sight {
        group: &group.first,
    };
    group.second.sample(index, moment, &sight)
}
