// Laws of what a run writes. The bodies cite the laws of datagrams, replies and samples, and do nothing else.
ghost use Rattle.std.specs.Prelude.{ℕ, List};
ghost use Rattle.rm_model.specs.Journal.{Frame, Journal};
ghost use Rattle.rm_pcap.specs.Records.{Stop};
ghost use Rattle.rm_settings.specs.declared.settings.Settings.{Settings};
ghost use Rattle.rm_agent.specs.Orderly.{IsOrderly};
ghost use Rattle.rm_requests.specs.Lines.{TimedDatagram};
ghost use Rattle.rm_probe.specs.Events.{Event};
ghost use Rattle.rm_probe.specs.InOrder.{AreInOrder};
ghost use Rattle.rm_probe.specs.Serving.{Arrival, IsServed, IsServedBy, frames_by_last, requests_of};
ghost use Rattle.rm_probe.specs.Said.{Said};
ghost use Rattle.rm_probe.specs.Laws.{IsToldOnce, OneOfEach};
ghost use Rattle.rm_probe.specs.Text.{AreSaid, IsText, IsTextBy};

use rm_agent::{
    advance_is_orderly, every_advance, every_reply, frame_is_orderly, one_advance, one_reply,
    reply_is_orderly,
};
use rm_pdu::{every_parse, one_parse};

/// A law: of the same frames and datagrams there is one text with the same answers to the SetRequests that reserve storage, and one in all
/// where none of them does. Each text is written with some answers.
pub fn one_text()
    ensures { (settings : Settings) (frames : List Frame) (stop : Stop) (requests : List TimedDatagram) (events : List Event) → AreInOrder 1 frames requests events
        → IsToldOnce settings events (IsText settings frames stop requests) (IsTextBy settings frames stop requests) }
{
    one_of_each();
}

/// A law: of the same frames and the same datagrams that came one thing is said by a run that serves with the same answers to the SetRequests
/// that reserve storage, and one in all where none of them does. All that may be said is said with some answers.
pub fn one_served()
    ensures { (settings : Settings) (frames : List Frame) (stop : Stop) (arrivals : List Arrival) (events : List Event)
        → AreInOrder 1 (frames_by_last arrivals frames) (requests_of arrivals) events
        → IsToldOnce settings events (IsServed settings frames stop arrivals) (IsServedBy settings frames stop arrivals) }
{
    one_of_each();
}

// A law: there is one of each thing of which a run is made.
fn one_of_each()
    ensures { (settings : Settings) → OneOfEach settings }
{
    one_parse();
    one_reply();
    one_advance();
}

/// A law: from an orderly journal on, something may be said of all events.
pub(crate) fn something_said()
    ensures { (settings : Settings) (journal : Journal) → IsOrderly journal → (events : List Event) → (said : List Said)
        × AreSaid settings journal events said }
{
    every_parse();
    every_reply();
    every_advance();
    advance_is_orderly();
    frame_is_orderly();
    reply_is_orderly();
}
