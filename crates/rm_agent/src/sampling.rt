// The samples of alarms, and their firings.
ghost use Rattle.std.specs.Prelude.{◌≡◌, ℕ, ◌≤◌, ◌<◌, max, true, Some, is_some};
ghost use Rattle.rm_model.specs.Counting.{Counting};
ghost use Rattle.rm_model.specs.Journal.{Journal, last_moment};
ghost use Rattle.rm_model.specs.ControlRows.{is_valid};
ghost use Rattle.rm_acts.specs.Alarms.{alarm_state, due_of};
ghost use Rattle.rm_acts.specs.Events.{event_asked};
ghost use Rattle.rm_alarm.specs.Group.{due_in};
ghost use Rattle.rm_alarm.specs.Standing.{Stands as AlarmsStand};
ghost use Rattle.rm_agent.specs.Members.{alarms_of};
ghost use Rattle.rm_agent.specs.Groups.{GroupsStand, AreAskable, AreStocked, clock_of, frames_of, left_of};
ghost use Rattle.rm_agent.specs.Notifications.{trap_of};
ghost use Rattle.rm_agent.specs.Told.{IsTaken};

use crate::firing::fire_by;
use crate::groups::{Groups, alarms, end_by, events, sample};
use rm_acts::Firing;
use rm_alarm::{Alarms, Sampled};
use rm_columns::natural;
use rm_event::Fired;

/// What a sample came to, the event that it asked for, which is 0 for none, and what became of that event.
#[derive(Drop)]
pub(crate) struct Taken {
    pub comes: Sampled,
    pub event: u32,
    pub fired: Fired,
}

/// Takes the sample of an alarm that is due at a moment, in milliseconds, and its firing, once the reports of hosts have ended that are due
/// by then. An event without a valid row doesn't fire.
pub(crate) fn take(groups: &mut Groups, index: u32, moment: u32) -> Taken
    requires { due_in (alarms_of groups.old) index ≡ Some moment }
    ensures taken { (settings : Counting) (journal : Journal) → GroupsStand groups.old settings journal → last_moment journal ≤ moment
        → due_of journal index ≡ Some moment → IsTaken settings journal moment index groups.new result }
    ensures clock { clock_of groups.new ≤ max (clock_of groups.old) moment }
    ensures frames { frames_of groups.new ≡ frames_of groups.old }
    ensures stocked { AreStocked groups.old → AreStocked groups.new }
    ensures askable { AreAskable groups.new moment }
    ensures fewer { (latest : ℕ) → moment ≤ latest
        → left_of groups.new latest < left_of groups.old latest }
{
    end_by(groups, moment);
    let comes = sample(groups, index, moment);
    let event = event_asked(alarms(groups), index, comes);
    let fired = events(groups).becomes(event);
    let firing = Firing {
        event,
        channel: None,
    };
    fire_by(groups, &firing, fired, moment);
    Taken {
        comes,
        event,
        fired,
    }
}

// The event that a sample of an alarm asks for, by what it comes to: 0 for none.
fn event_asked(alarms: &Alarms, index: u32, comes: Sampled) -> u32
    ensures { (settings : Counting) (journal : Journal) → AlarmsStand alarms.now settings journal
        → (is_some (trap_of comes) ≡ true → is_valid (alarm_state journal index) ≡ true)
        → result ≡ event_asked journal index comes }
{
    let Some(row) = alarms.row(index) else {
        return 0;
    };
    match comes {
        Sampled::Rising => natural(row.rising_event),
        Sampled::Falling => natural(row.falling_event),
        Sampled::Quiet | Sampled::Gone => 0,
    }
}
