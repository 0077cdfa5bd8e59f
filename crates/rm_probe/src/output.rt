// The output of a run.
ghost use Rattle.std.specs.Prelude.{◌≡◌, [], None, refl};
ghost use Rattle.rm_probe.specs.Said.{to_each};
ghost use Rattle.rm_probe.specs.Output.{HasAdded, Says, TellsInOrder, failed_by, front_none, nothing_added, shown};
ghost use Rattle.rm_probe.specs.declared.post.Addressee.TheVariants.{Asking, Manager};

use crate::line::{self, Line};
use crate::notes::{Notes, Outlet};
use crate::post::{Addressee, Post, Unsent};
use crate::replaying::NumberedDatagram;
use rm_agent::{Answer, MOST_REPLY};
use rm_edge::Sink;

/// Why an output takes nothing more.
#[derive(Clone, Copy, Debug, PartialEq, Eq)]
pub enum OutputFault {
    /// A put failed.
    Put,
    /// A send failed.
    Send,
}

/// The output of a run: lines, each put whole into a sink, and the messages that some of them tell, each sent after its line. Once a
/// put or a send has failed, nothing more is put or sent.
#[derive(Drop)]
pub struct Output<'a, K: Sink, P: Post> {
    sink: &'a mut K,
    post: P,
    failed: Option<OutputFault>,
}

impl<'a, K: Sink> Output<'a, K, Unsent> {
    /// The output into a sink, of which no put has failed yet. Nothing is sent.
    pub fn new(sink: &'a mut K) -> Output<'a, K, Unsent>
        ensures same_reference { result.sink.ghost_name ≡ sink.entry.ghost_name }
        ensures sink { result.sink.now ≡ sink.old }
        ensures failed { result.failed ≡ None }
    {
        Output::posting(sink, Unsent)
    }
}

impl<'a, K: Sink, P: Post> Output<'a, K, P> {
    /// The output into a sink and a post, of which no call has failed yet.
    pub fn posting(sink: &'a mut K, post: P) -> Output<'a, K, P>
        ensures same_reference { result.sink.ghost_name ≡ sink.entry.ghost_name }
        ensures sink { result.sink.now ≡ sink.old }
        ensures post { result.post ≡ post }
        ensures failed { result.failed ≡ None }
    {
        Output {
            sink,
            post,
            failed: None,
        }
    }

    /// Puts a line. A fault comes where this put fails, or a call failed before; a front of the line may then have been put.
    pub(crate) fn put(&mut self, line: &Line) -> Result<(), OutputFault>
        ensures same_reference { self.new.sink.ghost_name ≡ self.old.sink.ghost_name }
        ensures post { self.new.post ≡ self.old.post }
        ensures adds { HasAdded (shown K.content K.faults P.sent P.faults self.old.sink.now self.old.post self.old.failed)
            (shown K.content K.faults P.sent P.faults self.new.sink.now self.new.post self.new.failed) line.now.items [] }
        ensures failed { self.new.failed ≡ failed_by result }
    {
        if let Some(fault) = self.failed {
            return Err(fault);
        }
        match self.sink.put(line.as_slice()) {
            Ok(()) => Ok(()),
            Err(_) => {
                self.failed = Some(OutputFault::Put);
                Err(OutputFault::Put)
            }
        }
    }

    // Puts a line, and sends the message that it tells.
    fn tell(&mut self, line: &Line, to: Addressee, message: &[u8]) -> Result<(), OutputFault>
        ensures same_reference { self.new.sink.ghost_name ≡ self.old.sink.ghost_name }
        ensures post { P.same self.old.post self.new.post }
        ensures adds { HasAdded (shown K.content K.faults P.sent P.faults self.old.sink.now self.old.post self.old.failed)
            (shown K.content K.faults P.sent P.faults self.new.sink.now self.new.post self.new.failed) line.now.items
            (to_each (P.peers self.old.post to) message.now) }
        ensures order { self.old.failed ≡ None → TellsInOrder (shown K.content K.faults P.sent P.faults self.old.sink.now self.old.post self.old.failed)
            (shown K.content K.faults P.sent P.faults self.new.sink.now self.new.post self.new.failed) line.now.items (to_each (P.peers self.old.post to) message.now) }
        ensures failed { self.new.failed ≡ failed_by result }
    {
        self.put(line)?;
        match self.post.send(to, message) {
            Ok(()) => Ok(()),
            Err(_) => {
                self.failed = Some(OutputFault::Send);
                Err(OutputFault::Send)
            }
        }
    }
}

impl<K: Sink, P: Post> Notes for Output<'_, K, P> {
    ghost since = { λ start now said. (now.sink.ghost_name ≡ start.sink.ghost_name) × Says P.peers P.same start.post now.post
        (shown K.content K.faults P.sent P.faults start.sink.now start.post start.failed)
        (shown K.content K.faults P.sent P.faults now.sink.now now.post now.failed) said };

    ghost none = { λ state. (
      refl,
      record {
        still = P.still state.post;
        adds = nothing_added (shown K.content K.faults P.sent P.faults state.sink.now state.post state.failed);
        order = λ none. ([], front_none (P.peers state.post Manager) (λ number. P.peers state.post Asking) (K.content state.sink.now) (P.sent state.post));
      },
    ) };

    fn note(&mut self, moment: u32, message: &[u8]) {
        let mut line = Line::new();
        line::trap_line(moment, message, &mut line);
        // A call that failed is kept in mind.
        let _ = self.tell(&line, Addressee::Manager, message);
    }
}

/// A reply is sent behind its line.
impl<K: Sink, P: Post> Outlet for Output<'_, K, P> {
    ghost failed = { λ state. state.failed };

    fn answer(
        &mut self,
        request: NumberedDatagram<'_>,
        answer: Answer,
        out: &[u8; MOST_REPLY],
    ) -> Result<(), OutputFault> {
        let mut line = Line::new();
        line::answer_line(request.moment, request.number, answer, out, &mut line);
        match answer {
            Answer::Reply(count) => self.tell(&line, Addressee::Asking, &out[..count]),
            Answer::Drop(_) => self.put(&line),
        }
    }

    fn last(&mut self, is_cut: bool, frames: u64, requests: u64) -> Result<(), OutputFault> {
        let mut line = Line::new();
        line::last_line(is_cut, frames, requests, &mut line);
        self.put(&line)
    }
}
