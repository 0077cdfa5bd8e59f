// A probe that a load is given to.
ghost use Rattle.std.specs.Prelude.{◌≡◌, ◌+◌, ◌≤◌, IfOk};
ghost use Rattle.rm_model.specs.Journal.{Journal};
ghost use Rattle.rm_pdu.specs.Draft.{drafted};
ghost use Rattle.rm_pdu.specs.Message.{Message};
ghost use Rattle.rm_probe.specs.Probe.{settings_of, last_given, frames_given, IsFresh, Stands};
ghost use Rattle.rm_load.specs.Acts.{acts_of, rows_made};
ghost use Rattle.rm_load.specs.Sets.{first_set, second_set, set_request};
ghost use Rattle.rm_load.specs.Steps.{HasAnswered, IsLoaded};

use crate::frames::Frames;
use crate::made::{BEFORE_FRAMES, MOST_MADE};
use crate::requests::{first_request, second_request};
use crate::unheard::Unheard;
use rm_agent::{MOST_REPLY, one_reply};
use rm_pdu::{Draft, bindings_add_up, bindings_are_bounded, one_parse, reads_back};
use rm_probe::Probe;
use rm_settings::Settings;
use rm_val::NoMemory;
use std::alloc::Global;

// The moments of the two Sets, in milliseconds.
const FIRST_SET: u32 = 100;

const SECOND_SET: u32 = 200;

/// The moment after that of the last of so many frames, in milliseconds.
pub fn moment_behind(count: u32) -> u32
    requires { count ≤ MOST_MADE }
    ensures { result ≡ 1001 + count }
{
    BEFORE_FRAMES + count + 1
}

/// A probe that is set so, after the rows were made and so many frames have come, at most `MOST_MADE`. It may be asked at the moment after
/// that of the last of them. NoMemory where there is none for the storage that tables take at first; no Set of a load reserves any.
pub fn loaded(alloc: Global, settings: Settings, start: u32, count: u32) -> Result<Probe, NoMemory>
    requires { count ≤ MOST_MADE }
    ensures { IfOk result (IsLoaded settings start count) }
{
    let first = first_request(&settings.write);
    let second = second_request(&settings.write);
    let mut probe = Probe::new(alloc, settings)?;
    make_rows(alloc, &mut probe, first, second);
    pass_frames(&mut probe, start, count);
    probe.advance(moment_behind(count), &mut Unheard);
    Ok(probe)
}

// Has a probe to which nothing came yet answer both requests of its write community.
fn make_rows(alloc: Global, probe: &mut Probe, first: Draft, second: Draft)
    requires fresh { IsFresh probe.old }
    requires first { first ≡ drafted (set_request (settings_of probe.old).write.items 1 first_set) }
    requires second { second ≡ drafted (set_request (settings_of probe.old).write.items 2 second_set) }
    ensures stands { Stands probe.new rows_made }
    ensures settings { settings_of probe.new ≡ settings_of probe.old }
    ensures last { last_given probe.new ≡ 200 }
    ensures frames { frames_given probe.new ≡ 0 }
{
    // Laws by which both are accepted.
    bindings_add_up();
    bindings_are_bounded();
    one_parse();
    one_reply();
    reads_back();
    answer(alloc, probe, first, FIRST_SET);
    answer(alloc, probe, second, SECOND_SET);
}

// Has a probe answer a request at a moment, in milliseconds, which isn't below the last one given. The reply goes nowhere.
fn answer(alloc: Global, probe: &mut Probe, request: Draft, moment: u32)
    requires { last_given probe.old ≤ moment }
    ensures answered { (m : Message) (journal : Journal) → request ≡ drafted m → Stands probe.old journal
        → HasAnswered (settings_of probe.old) journal moment m probe.new }
    ensures settings { settings_of probe.new ≡ settings_of probe.old }
    ensures last { last_given probe.new ≡ moment }
    ensures frames { frames_given probe.new ≡ frames_given probe.old }
{
    let mut datagram = [0; MOST_REPLY];
    let length = request.finish(&mut datagram);
    let mut reply = [0; MOST_REPLY];
    let _ = probe.datagram(alloc, &datagram[..length], moment, &mut reply, &mut Unheard);
}

// Gives so many frames to a probe that has the rows.
fn pass_frames(probe: &mut Probe, start: u32, count: u32)
    requires few { count ≤ MOST_MADE }
    requires stands { Stands probe.old rows_made }
    requires last { last_given probe.old ≤ 1000 }
    requires first { frames_given probe.old ≡ 0 }
    ensures stands { Stands probe.new (acts_of start count) }
    ensures settings { settings_of probe.new ≡ settings_of probe.old }
    ensures last { last_given probe.new ≤ 1000 + count }
{
    for made in Frames::new(start, count) {
        probe.frame(&made.lend(), &mut Unheard);
    }
}
