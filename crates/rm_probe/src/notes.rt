// Where the notifications of a probe go, and what else is said in a run.
ghost use Rattle.std.specs.Prelude.{◌≡◌, ◌≤◌, List, [], ◌∷◌, Option, length};
ghost use Rattle.rm_agent.specs.Answers.{IsShort};
ghost use Rattle.rm_probe.specs.Output.{failed_by};
ghost use Rattle.rm_probe.specs.Said.{Last, Notified, Responded, Said, SaysMore, response_of};
ghost use Rattle.rm_probe.specs.declared.output.OutputFault.{OutputFault as Failing};

use crate::output::OutputFault;
use crate::replaying::NumberedDatagram;
use rm_agent::{Answer, MOST_REPLY};

/// Where the notifications of a probe go (RFC 1905, section 4.2.6).
pub trait Notes {
    /// Since an earlier state this was said, notifications and what else is said in a run, in this order.
    ghost since: { Self → Self → List Said → Type 0 };

    /// Takes a notification: its moment in milliseconds, and the octets of its message, at most 1472.
    fn note(&mut self, moment: u32, message: &[u8])
        requires short { length message.now ≤ MOST_REPLY }
        ensures noted { SaysMore since self.old self.new (Notified (record { moment = moment; message = message.now }) ∷ []) };

    /// Since a state itself nothing was said.
    ghost none: { (state : Self) → since state state [] };
}

/// Where all that is said in a run goes: notifications, what is answered, and the last line.
pub(crate) trait Outlet: Notes {
    /// What failed last.
    ghost failed: { Self → Option Failing };

    /// Says what is answered to a datagram. The reply, if there is one, stands at the front of `out`.
    fn answer(
        &mut self,
        request: NumberedDatagram<'_>,
        answer: Answer,
        out: &[u8; MOST_REPLY],
    ) -> Result<(), OutputFault>
        requires short { IsShort answer }
        ensures says { SaysMore Self.since self.old self.new (Responded request.entry.number request.entry.moment (response_of answer out.now) ∷ []) }
        ensures failed { failed self.new ≡ failed_by result };

    /// Says whether a capture is cut short, and how many frames and datagrams there were.
    fn last(&mut self, is_cut: bool, frames: u64, requests: u64) -> Result<(), OutputFault>
        ensures says { SaysMore Self.since self.old self.new (Last is_cut frames requests ∷ []) }
        ensures failed { failed self.new ≡ failed_by result };
}
