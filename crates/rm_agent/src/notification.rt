// The notifications of alarms.
ghost use Rattle.std.specs.Prelude.{◌≡◌, ℕ, ◌≤◌, ◌<◌, ◌%◌, ◌^◌, length};
ghost use Rattle.std.specs.Option.{option_map};
ghost use Rattle.rm_val.specs.Spellable.{IsSpellable};
ghost use Rattle.rm_model.specs.Counting.{Counting};
ghost use Rattle.rm_model.specs.Journal.{Journal, samples};
ghost use Rattle.rm_alarm.specs.Watched.{number_read};
ghost use Rattle.rm_pdu.specs.Draft.{drafted};
ghost use Rattle.rm_agent.specs.Notifications.{is_trap, notification_numbered, up_time_name, trap_name};
ghost use Rattle.rm_agent.specs.Told.{IsTaken, stated_trap};

use crate::groups::{Groups, alarms, events};
use crate::sampling::Taken;
use crate::told::Told;
use crate::trap::{AlarmTrap, trap_of};
use rm_alarm::column::{INDEX, SAMPLE_TYPE, VALUE, VARIABLE};
use rm_alarm::column_name;
use rm_event::Fired;
use rm_pdu::{Draft, Kind, bindings_add_up, bindings_are_bounded, bindings_lengthen};
use rm_val::{Oid, Value};

/// The notification of the sample that an alarm took at a moment, in milliseconds, with a request-id. None where none is sent.
pub(crate) fn notification(
    groups: &Groups,
    taken: &Taken,
    alarm: u32,
    moment: u32,
    id: u32,
) -> Option<Draft>
    requires { id < 2 ^ 31 }
    ensures { (settings : Counting) (journal : Journal) (number : ℕ) → IsTaken settings journal moment alarm groups.now taken.now
        → number % 2 ^ 31 ≡ id
        → result ≡ option_map drafted (notification_numbered settings number (samples moment alarm (number_read settings journal moment alarm)) journal) }
{
    if !is_trap(taken.fired) {
        return None;
    }
    let trap = trap_of(taken.comes)?;
    let community = events(groups).community(taken.event)?;
    let row = alarms(groups).row(alarm)?;
    let told = Told::of(row, alarm, trap.threshold_column);
    Some(draft_of(community, id, moment, alarm, &trap, &told))
}

// Whether a trap is to be sent.
fn is_trap(fired: Fired) -> bool
    ensures { result ≡ is_trap fired }
{
    matches!(fired, Fired::Trap | Fired::Both)
}

// The draft of the notification with a request-id, to a community, that tells this of an alarm.
fn draft_of(
    community: &[u8],
    id: u32,
    moment: u32,
    alarm: u32,
    trap: &AlarmTrap,
    told: &Told,
) -> Draft
    requires community { length community.now ≤ 127 }
    requires id { id < 2 ^ 31 }
    requires kind { length trap.now.kind ≤ 9 }
    requires spellable { IsSpellable trap.now.kind }
    requires variable { IsSpellable told.now.variable }
    ensures { result ≡ drafted (stated_trap community.now id moment alarm trap.now told.now) }
{
    bindings_add_up();
    bindings_are_bounded();
    bindings_lengthen();
    prove!(told.variable.len() <= 128);
    let mut draft = Draft::new(community, Kind::Trap, id as i32, 0, 0);
    // There is room for each.
    let _ = draft.add(&up_time_name(), &Value::Ticks(moment / 10));
    let _ = draft.add(&trap_name(), &Value::Name(trap.kind.copied()));
    let _ = draft.add(&column_name(INDEX, alarm), &Value::Int(told.index));
    let _ = draft.add(
        &column_name(VARIABLE, alarm),
        &Value::Name(told.variable.copied()),
    );
    let _ = draft.add(
        &column_name(SAMPLE_TYPE, alarm),
        &Value::Int(told.sample_type),
    );
    let _ = draft.add(&column_name(VALUE, alarm), &Value::Int(told.value));
    let _ = draft.add(
        &column_name(trap.threshold_column, alarm),
        &Value::Int(told.threshold),
    );
    draft
}

// The name of sysUpTime.0.
fn up_time_name() -> Oid
    ensures { result ≡ up_time_name }
{
    Oid::from_slice(&[1, 3, 6, 1, 2, 1, 1, 3, 0]).unwrap()
}

// The name of snmpTrapOID.0.
fn trap_name() -> Oid
    ensures { result ≡ trap_name }
{
    Oid::from_slice(&[1, 3, 6, 1, 6, 3, 1, 1, 4, 1, 0]).unwrap()
}
