// The lines that are written.
ghost use Rattle.std.specs.Prelude.{◌≡◌, ◌+◌, ◌≤◌, ◌++◌, [], decimal, length};
ghost use Rattle.hex.specs.Hex.{encode_lower};
ghost use Rattle.rm_agent.specs.Answers.{IsShort};
ghost use Rattle.rm_probe.specs.Said.{Responded, answer_line, last_line, line_of, reason_text, response_of, response_text};
ghost use Rattle.rm_probe.specs.Notes.{trap_line};

use arrayvec::ArrayVec;
use itoa::Buffer;
use rm_agent::{Answer, MOST_REPLY, Reason};

/// The octets of a line, its line feed included.
pub type Line = ArrayVec<u8, 3072>;

// Appends octets.
fn push(line: &mut Line, bytes: &[u8])
    requires { length line.old.items + length bytes.now ≤ 3072 }
    ensures { line.new.items ≡ line.old.items ++ bytes.now }
{
    let _ = line.try_extend_from_slice(bytes);
}

// Appends a number in decimal digits.
fn push_number(line: &mut Line, number: u64)
    requires { length line.old.items + 40 ≤ 3072 }
    ensures text { line.new.items ≡ line.old.items ++ decimal number }
    ensures short { length (decimal number) ≤ 40 }
{
    let mut buffer = Buffer::new();
    push(line, buffer.format(number).as_bytes());
}

// Appends octets in hexadecimal digits.
fn push_hex(line: &mut Line, bytes: &[u8])
    requires room { length line.old.items + 2944 ≤ 3072 }
    requires short { length bytes.now ≤ MOST_REPLY }
    ensures text { line.new.items ≡ line.old.items ++ encode_lower bytes.now }
    ensures short { length line.new.items ≤ length line.old.items + 2944 }
{
    let mut text = [0; 2 * MOST_REPLY];
    let digits = &mut text[..2 * bytes.len()];
    let _ = hex::encode_to_slice(bytes, digits);
    push(line, digits);
}

// Appends why there is no reply.
fn push_reason(line: &mut Line, reason: Reason)
    requires { length line.old.items ≤ 120 }
    ensures text { line.new.items ≡ line.old.items ++ reason_text reason }
    ensures short { length line.new.items ≤ 200 }
{
    match reason {
        Reason::TooLong => push(line, b"too-long"),
        Reason::Malformed(at) => {
            push(line, b"malformed ");
            push_number(line, at as u64);
        }
        Reason::Version => push(line, b"version"),
        Reason::NotRequest => push(line, b"not-request"),
        Reason::Community => push(line, b"community"),
    }
}

// Appends what is answered: the reply, which is at the front of `out`, or why there is none.
fn push_answer(line: &mut Line, answer: Answer, out: &[u8; MOST_REPLY])
    requires front { length line.old.items ≤ 100 }
    requires short { IsShort answer }
    ensures text { line.new.items ≡ line.old.items ++ response_text (response_of answer out.now) }
    ensures short { length line.new.items ≤ 3060 }
{
    match answer {
        Answer::Reply(count) => {
            push(line, b"reply ");
            push_hex(line, &out[..count]);
        }
        Answer::Drop(reason) => {
            push(line, b"drop ");
            push_reason(line, reason);
        }
    }
}

/// Writes the line of a notification into an empty line.
pub fn trap_line(moment: u32, message: &[u8], line: &mut Line)
    requires empty { line.old.items ≡ [] }
    requires short { length message.now ≤ MOST_REPLY }
    ensures { line.new.items ≡ trap_line (record { moment = moment; message = message.now }) }
{
    push_number(line, u64::from(moment));
    push(line, b" trap ");
    push_hex(line, message);
    push(line, b"\n");
}

/// Writes the line of a datagram into an empty line: the moment in milliseconds at which it comes, its number, and what is
/// answered, a reply being at the front of `out`.
pub fn answer_line(
    moment: u32,
    number: u64,
    answer: Answer,
    out: &[u8; MOST_REPLY],
    line: &mut Line,
)
    requires empty { line.old.items ≡ [] }
    requires short { IsShort answer }
    ensures { line.new.items ≡ line_of (Responded number moment (response_of answer out.now)) }
{
    push_number(line, u64::from(moment));
    push(line, b" ");
    push_number(line, number);
    push(line, b" ");
    push_answer(line, answer, out);
    push(line, b"\n");
}

/// Writes the last line into an empty line: whether a capture is cut short, and how many frames and datagrams there were.
#[tactic(auto, unfolding(crate::specs::Said::last_line))]
pub fn last_line(is_cut: bool, frames: u64, requests: u64, line: &mut Line)
    requires { line.old.items ≡ [] }
    ensures { line.new.items ≡ last_line is_cut frames requests }
{
    if is_cut {
        push(line, b"cut");
    } else {
        push(line, b"end");
    }
    push(line, b" ");
    push_number(line, frames);
    push(line, b" ");
    push_number(line, requests);
    push(line, b"\n");
}
