// The firings of an act that is under way.
ghost use Rattle.std.specs.Prelude.{◌≡◌, [], List, ◌∷◌, ◌++◌};
ghost use Rattle.rm_model.specs.Counting.{Counting};
ghost use Rattle.rm_model.specs.Journal.{Act, Frame, Journal, passes, moment_of};
ghost use Rattle.rm_acts.specs.declared.firing.Firing.{Firing as Fires};
ghost use Rattle.rm_agent.specs.Members.{alarms_of, collectors_of};
ghost use Rattle.rm_agent.specs.Groups.{GroupsStand, AreUnderWay, AreStocked, clock_of, frames_of};
ghost use Rattle.rm_agent.specs.Firings.{firings_by, firings_asked};

use crate::groups::{Groups, events, fire, sources};
use arrayvec::ArrayVec;
use rm_acts::Firing;
use rm_event::Fired;
use rm_filter::Accepted;
use rm_status::MAX_ROWS;

/// Fires the events of the channels that accept the frame that passes at a moment, in milliseconds, in the order of their indexes. Each
/// firing turns and spends the channels. The frame has then passed.
pub(crate) fn fire_accepting(groups: &mut Groups, moment: u32)
    ensures stands { (settings : Counting) (earlier : Journal) (frame : Frame) → frame.moment ≡ moment
        → AreUnderWay groups.old settings (passes frame) earlier [] → GroupsStand groups.new settings (passes frame ∷ earlier) }
    ensures clock { clock_of groups.new ≡ clock_of groups.old }
    ensures frames { frames_of groups.new ≡ frames_of groups.old }
    ensures stocked { AreStocked groups.old → AreStocked groups.new }
{
    if !sources(groups).accepting().is_empty() {
        fire_all(groups, moment);
    }
}

// The same where a channel accepts the frame. The list of those that do is copied, since channels turn by the firings.
#[inline(never)]
fn fire_all(groups: &mut Groups, moment: u32)
    ensures stands { (settings : Counting) (earlier : Journal) (frame : Frame) → frame.moment ≡ moment
        → AreUnderWay groups.old settings (passes frame) earlier [] → GroupsStand groups.new settings (passes frame ∷ earlier) }
    ensures clock { clock_of groups.new ≡ clock_of groups.old }
    ensures frames { frames_of groups.new ≡ frames_of groups.old }
    ensures stocked { AreStocked groups.old → AreStocked groups.new }
{
    let mut accepting = ArrayVec::<Accepted, MAX_ROWS>::new();
    accepting
        .try_extend_from_slice(sources(groups).accepting())
        .unwrap();
    fire_each(groups, accepting.as_slice(), moment);
}

// Fires the events that channels ask for, one by one.
fn fire_each(groups: &mut Groups, accepting: &[Accepted], moment: u32)
    ensures under_way { (settings : Counting) (act : Act) (earlier : Journal) (some : List Fires) → moment_of act ≡ moment
        → AreUnderWay groups.old settings act earlier some → AreUnderWay groups.new settings act earlier (some ++ firings_asked earlier accepting.now) }
    ensures clock { clock_of groups.new ≡ clock_of groups.old }
    ensures frames { frames_of groups.new ≡ frames_of groups.old }
    ensures stocked { AreStocked groups.old → AreStocked groups.new }
{
    if let Some((first, rest)) = accepting.split_first() {
        fire_one(groups, first, moment);
        fire_each(groups, rest, moment);
    }
}

// Fires the event that a channel asks for, if it does.
fn fire_one(groups: &mut Groups, accepted: &Accepted, moment: u32)
    ensures under_way { (settings : Counting) (act : Act) (earlier : Journal) (some : List Fires) → moment_of act ≡ moment
        → AreUnderWay groups.old settings act earlier some → AreUnderWay groups.new settings act earlier (some ++ firings_asked earlier (accepted.now ∷ [])) }
    ensures clock { clock_of groups.new ≡ clock_of groups.old }
    ensures frames { frames_of groups.new ≡ frames_of groups.old }
    ensures stocked { AreStocked groups.old → AreStocked groups.new }
{
    if let Some(event) = accepted.event {
        let firing = Firing {
            event,
            channel: Some(accepted.channel),
        };
        let fired = events(groups).becomes(event);
        fire_by(groups, &firing, fired, moment);
    }
}

/// Takes a firing of the act that is under way, at its moment in milliseconds, by what becomes of its event: without a valid row that doesn't
/// fire.
pub(crate) fn fire_by(groups: &mut Groups, firing: &Firing, fired: Fired, moment: u32)
    ensures under_way { (settings : Counting) (act : Act) (earlier : Journal) (some : List Fires) → moment_of act ≡ moment
        → AreUnderWay groups.old settings act earlier some → AreUnderWay groups.new settings act earlier (some ++ firings_by firing.now fired) }
    ensures clock { clock_of groups.new ≡ clock_of groups.old }
    ensures frames { frames_of groups.new ≡ frames_of groups.old }
    ensures stocked { AreStocked groups.old → AreStocked groups.new }
    ensures alarms { alarms_of groups.new ≡ alarms_of groups.old }
    ensures collectors { collectors_of groups.new ≡ collectors_of groups.old }
{
    match fired {
        Fired::Absent => {}
        _ => fire(groups, firing, moment),
    }
}
