// The answer to a datagram.

use rm_pdu::Fault;

/// Why a datagram gets no reply.
#[derive(Clone, Copy, Debug, PartialEq, Eq)]
pub enum Reason {
    /// It has more than 8192 octets.
    TooLong,
    /// It isn't a message, and the offset where that shows.
    Malformed(usize),
    /// Its version isn't 1.
    Version,
    /// Its PDU isn't a request.
    NotRequest,
    /// Its community is neither the read nor the write community.
    Community,
}

impl From<Fault> for Reason {
    ghost use Rattle.std.specs.Prelude.{◌≡◌};
    ghost use Rattle.rm_agent.specs.Answers.{reason_of};

    ghost from_gives = { λ fault reason. reason ≡ reason_of fault };

    fn from(fault: Fault) -> Reason {
        match fault {
            Fault::TooLong => Reason::TooLong,
            Fault::Malformed(at) => Reason::Malformed(at),
            Fault::Version(_) => Reason::Version,
            Fault::NotRequest(_) => Reason::NotRequest,
        }
    }
}

/// The answer to a datagram: a reply of so many octets, or none.
#[derive(Clone, Copy, Debug, PartialEq, Eq)]
pub enum Answer {
    /// The octets of the reply, at the front of `out`.
    Reply(usize),
    /// There is no reply.
    Drop(Reason),
}
