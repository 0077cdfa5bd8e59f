// The groups of objects that the agent answers for. Only here is it said how they stand in one another.
ghost use Rattle.std.specs.Prelude.{◌≡◌, ℕ, ◌+◌, ◌≤◌, ◌<◌, max, List, [], ◌∷◌, ◌++◌, length, Some, IfOk, OnOk};
ghost use Rattle.std.specs.Option.{option_map};
ghost use Rattle.rm_val.specs.Val.{val_of};
ghost use Rattle.rm_model.specs.Counting.{Counting};
ghost use Rattle.rm_model.specs.Journal.{Act, Frame, Journal, passes, samples, moment_of, last_moment};
ghost use Rattle.rm_group.specs.Due.{IsFirst};
ghost use Rattle.rm_group.specs.Passing.{IsOf};
ghost use Rattle.rm_group.specs.declared.due.Due.{Due as Falling};
ghost use Rattle.rm_group.specs.declared.due.TheConstants.{SAMPLES};
ghost use Rattle.rm_group.specs.declared.bounds.TheConstants.{MOST_FRAMES, MOST_OCTETS};
ghost use Rattle.rm_acts.specs.Alarms.{sampled};
ghost use Rattle.rm_acts.specs.declared.firing.Firing.{Firing as Fires};
ghost use Rattle.rm_alarm.specs.Group.{due_in};
ghost use Rattle.rm_alarm.specs.Watched.{number_read};
ghost use Rattle.rm_agent.specs.Members.{alarms_of, all_groups as groups_of, collectors_of, events_of, sources_of, watched};
ghost use Rattle.rm_capture.specs.declared.buffer_row.TheConstants.{MOST_SLICE};
ghost use Rattle.rm_agent.specs.Known.{counting_by};
ghost use Rattle.rm_agent.specs.Groups.{GroupsStand, AreAskable, AreUnderWay, AreStocked, FallDue, clock_of, frames_of, left_of};

use crate::firing::fire_accepting;
use rm_acts::Firing;
use rm_alarm::{Alarms, Sampled, Watched, reads_cells, take_sample};
use rm_event::Events;
use rm_group::{Both, Due, FallsDue, Group, Passing, Steps, System, sample_begins};
use rm_settings::Settings;
use rm_sources::Sources;
use rm_val::{NoMemory, Oid, Value};
use std::alloc::Global;

/// All groups of objects that the agent answers for.
pub(crate) type Groups = Both<System, Both<Events, Watched<Sources>>>;

/// The groups of a probe that is set so, before the first act, which stand in memory of their own. They take the storage of one row of
/// each table whose rows take storage while they are valid. NoMemory where there is none.
pub(crate) fn all_groups(alloc: Global, settings: &Settings) -> Result<Box<Groups>, NoMemory>
    ensures stands { IfOk result (λ groups. GroupsStand groups.value (counting_by settings.now) []) }
    ensures clock { IfOk result (λ groups. clock_of groups.value ≡ 0) }
    ensures frames { IfOk result (λ groups. frames_of groups.value ≡ 0) }
    ensures stocked { IfOk result (λ groups. AreStocked groups.value) }
{
    let Ok(mut groups) = Box::new(alloc, first_groups(settings)) else {
        return Err(NoMemory);
    };
    reserve(alloc, &mut groups)?;
    Ok(groups)
}

// The groups before they take storage. They are made in frames of their own, which are large, each of which has room for some of them.
#[inline(never)]
fn first_groups(settings: &Settings) -> Groups
    ensures stands { GroupsStand result (counting_by settings.now) [] }
    ensures clock { clock_of result ≡ 0 }
    ensures frames { frames_of result ≡ 0 }
{
    Both {
        first: System,
        second: Both {
            first: Events::new(),
            second: first_watched(settings),
        },
    }
}

// The alarms, and the groups whose variables they sample.
#[inline(never)]
fn first_watched(settings: &Settings) -> Watched<Sources>
    ensures stands { watched.stands result (counting_by settings.now) [] }
    ensures clock { watched.clock result ≡ 0 }
    ensures frames { watched.frames result ≡ 0 }
{
    reads_cells::<Sources>();
    Both {
        first: Sources::new(settings),
        second: Alarms::new(),
    }
}

// Takes the storage of one row of each table whose rows take storage.
fn reserve(alloc: Global, groups: &mut Groups) -> Result<(), NoMemory>
    ensures stands { (settings : Counting) → GroupsStand groups.old settings [] → GroupsStand groups.new settings [] }
    ensures clock { clock_of groups.new ≡ clock_of groups.old }
    ensures frames { frames_of groups.new ≡ frames_of groups.old }
    ensures stocked { OnOk result (AreStocked groups.new) }
{
    groups.second.first.reserve(alloc)?;
    groups.second.second.first.reserve(alloc)
}

/// The events.
pub(crate) fn events(groups: &Groups) -> &Events
    ensures { result.now ≡ events_of groups.now }
{
    &groups.second.first
}

/// The groups whose variables alarms may sample.
pub(crate) fn sources(groups: &Groups) -> &Sources
    ensures { result.now ≡ sources_of groups.now }
{
    &groups.second.second.first
}

/// The alarms.
pub(crate) fn alarms(groups: &Groups) -> &Alarms
    ensures { result.now ≡ alarms_of groups.now }
{
    &groups.second.second.second
}

/// The value of the variable with that name at a moment in milliseconds, which isn't below that of the last act, and at which the groups may
/// be asked. None where there is no such variable.
pub(crate) fn cell<'a>(groups: &'a Groups, name: &Oid, now: u32) -> Option<Value<'a>>
    ensures { (settings : Counting) (journal : Journal) → GroupsStand groups.now settings journal → last_moment journal ≤ now
        → AreAskable groups.now now → option_map val_of result ≡ groups_of.cells settings journal now name.now }
{
    groups.cell(name, now)
}

/// What falls due next: the end of a report of hosts, or the sample of an alarm. None where neither ever does.
pub(crate) fn next_due(groups: &Groups) -> Option<Due>
    ensures { IsFirst (FallDue groups.now) result }
{
    groups.next_due()
}

/// Ends the reports of hosts that are due up to a moment, in milliseconds: the groups may then be asked at it.
pub(crate) fn end_by(groups: &mut Groups, moment: u32)
    ensures stands { (settings : Counting) (journal : Journal) → GroupsStand groups.old settings journal → GroupsStand groups.new settings journal }
    ensures askable { AreAskable groups.new moment }
    ensures clock { clock_of groups.new ≤ max (clock_of groups.old) moment }
    ensures frames { frames_of groups.new ≡ frames_of groups.old }
    ensures stocked { AreStocked groups.old → AreStocked groups.new }
    ensures events { events_of groups.new ≡ events_of groups.old }
    ensures alarms { alarms_of groups.new ≡ alarms_of groups.old }
    ensures left { (latest : ℕ) → left_of groups.new latest ≤ left_of groups.old latest }
    ensures fewer { (due : Falling) (latest : ℕ) → FallDue groups.old due → due.kind < SAMPLES → due.moment ≤ moment → due.moment ≤ latest
        → left_of groups.new latest < left_of groups.old latest }
{
    groups.second.second.first.end_by(moment);
}

/// A frame passes, once the reports of hosts have ended that are due by its moment. All channels judge it, and buffers keep it, before the
/// events fire of the channels that accept it.
pub(crate) fn pass(groups: &mut Groups, passing: &Passing<'_>)
    requires later { clock_of groups.old ≤ passing.now.moment }
    requires room { frames_of groups.old < MOST_FRAMES }
    requires length { passing.now.facts.length ≤ MOST_OCTETS }
    requires captured { length passing.now.octets.now ≤ MOST_SLICE }
    ensures stands { (settings : Counting) (earlier : Journal) (frame : Frame)
        → IsOf settings frame passing.now.facts passing.now.octets.now passing.now.number passing.now.moment
        → GroupsStand groups.old settings earlier → last_moment earlier ≤ passing.now.moment → GroupsStand groups.new settings (passes frame ∷ earlier) }
    ensures clock { clock_of groups.new ≤ passing.now.moment }
    ensures frames { frames_of groups.new ≤ frames_of groups.old + 1 }
    ensures stocked { AreStocked groups.old → AreStocked groups.new }
{
    end_by(groups, passing.moment);
    groups.second.first.pass(passing);
    groups.second.second.first.pass(passing);
    groups.second.second.second.pass(passing);
    fire_accepting(groups, passing.moment);
}

/// Takes the sample of an alarm that is due at a moment, in milliseconds, at which the groups may be asked, and tells what it comes to.
/// All groups are then in that act, and its firings are to be taken.
pub(crate) fn sample(groups: &mut Groups, index: u32, moment: u32) -> Sampled
    requires { due_in (alarms_of groups.old) index ≡ Some moment }
    ensures under_way { (settings : Counting) (journal : Journal) → GroupsStand groups.old settings journal → last_moment journal ≤ moment
        → AreAskable groups.old moment → AreUnderWay groups.new settings (samples moment index (number_read settings journal moment index)) journal [] }
    ensures result { (settings : Counting) (journal : Journal) → GroupsStand groups.old settings journal → last_moment journal ≤ moment
        → AreAskable groups.old moment → result ≡ sampled settings journal moment index (number_read settings journal moment index) }
    ensures events { events_of groups.new ≡ events_of groups.old }
    ensures collectors { collectors_of groups.new ≡ collectors_of groups.old }
    ensures clock { clock_of groups.new ≡ clock_of groups.old }
    ensures frames { frames_of groups.new ≡ frames_of groups.old }
    ensures stocked { AreStocked groups.old → AreStocked groups.new }
    ensures fewer { (latest : ℕ) → moment ≤ latest → left_of groups.new latest < left_of groups.old latest }
{
    sample_begins(&groups.second.first, moment);
    groups.second.second.first.sample_begins(moment);
    take_sample(&mut groups.second.second, index, moment)
}

/// Takes a firing of the act that is under way, at its moment in milliseconds: the events and the filters do, to which it makes a difference.
pub(crate) fn fire(groups: &mut Groups, firing: &Firing, moment: u32)
    ensures under_way { (settings : Counting) (act : Act) (earlier : Journal) (some : List Fires) → moment_of act ≡ moment
        → AreUnderWay groups.old settings act earlier some → AreUnderWay groups.new settings act earlier (some ++ firing.now ∷ []) }
    ensures clock { clock_of groups.new ≡ clock_of groups.old }
    ensures frames { frames_of groups.new ≡ frames_of groups.old }
    ensures stocked { AreStocked groups.old → AreStocked groups.new }
    ensures alarms { alarms_of groups.new ≡ alarms_of groups.old }
    ensures collectors { collectors_of groups.new ≡ collectors_of groups.old }
{
    groups.second.first.take(firing, moment);
    groups.second.second.first.take(firing, moment);
}
