// The lines of a request file.
ghost use Rattle.std.specs.Prelude.{◌≡◌, ◌+◌, ◌≤◌, ◌<◌, ◌^◌, length, take, MatchOption, Some, None, position, ◌==◌};
ghost use Rattle.std.specs.Str.Lines.{strip_carriage_return};
ghost use Rattle.rm_requests.specs.Reading.{is_newline, IsFirst, IsWrongAfter};
ghost use Rattle.rm_requests.specs.Lines.{is_blank, datagram_of, request_of};

use rm_edge::read_number;

/// How many octets the longest datagram of a line has.
pub const MOST_DATAGRAM: usize = 65_535;

fn without_return(line: &[u8]) -> &[u8]
    ensures { result.now ≡ strip_carriage_return line.now }
{
    match line {
        [front @ .., b'\r'] => front,
        _ => line,
    }
}

/// Where the first line feed stands.
pub fn line_end(bytes: &[u8]) -> Option<usize>
    ensures { result ≡ position is_newline bytes.now }
{
    bytes.iter().position(|b| *b == b'\n')
}

/// The first line of octets whose first line feed stands there, and how many octets it takes with its end. The last line
/// may have no end.
pub fn first_line(bytes: &[u8], end: Option<usize>) -> (&[u8], usize)
    requires { end ≡ position is_newline bytes.now }
    ensures { IsFirst (position is_newline bytes.now) bytes.now result.0.now result.1 }
{
    match end {
        Some(end) => (without_return(&bytes[..end]), end + 1),
        None => (bytes, bytes.len()),
    }
}

#[tactic(auto, unfolding(crate::specs::Lines::datagram_of))]
fn read_datagram(digits: &[u8], into: &mut [u8]) -> Option<usize>
    requires { 65535 ≤ length into.old }
    ensures { MatchOption result (datagram_of digits.now ≡ None)
        (λ count. (count ≤ 65535) × (datagram_of digits.now ≡ Some (take count into.new))) }
{
    if digits.len() > 2 * MOST_DATAGRAM || digits.len() % 2 != 0 {
        return None;
    }
    let count = digits.len() / 2;
    match hex::decode_to_slice(digits, &mut into[..count]) {
        Ok(()) => Some(count),
        Err(_) => None,
    }
}

fn first_blank(line: &[u8]) -> Option<usize>
    ensures { result ≡ position is_blank line.now }
{
    line.iter().position(|c| *c == b' ')
}

#[tactic(auto, unfolding(crate::specs::Lines::request_of))]
fn read_request(line: &[u8], into: &mut [u8]) -> Option<(u32, usize)>
    requires { 65535 ≤ length into.old }
    ensures { MatchOption result (request_of line.now ≡ None)
        (λ found. (found.0 < 2 ^ 32) × (found.1 ≤ 65535) × (request_of line.now ≡ Some (record { moment = found.0; datagram = take found.1 into.new }))) }
{
    let blank = first_blank(line)?;
    let moment = read_number(&line[..blank])?;
    let count = read_datagram(&line[blank + 1..], into)?;
    Some((moment, count))
}

/// The moment of a line, and how many octets its datagram has, which stands at the front of `into`. None comes exactly where the
/// line isn't of the form, or its moment is below the one before.
pub fn read_next(last: u32, line: &[u8], into: &mut [u8]) -> Option<(u32, usize)>
    requires { 65535 ≤ length into.old }
    ensures { MatchOption result (IsWrongAfter last line.now)
        (λ found. (last ≤ found.0) × (found.0 < 2 ^ 32) × (found.1 ≤ 65535)
        × (request_of line.now ≡ Some (record { moment = found.0; datagram = take found.1 into.new }))) }
{
    let (moment, count) = read_request(line, into)?;
    (moment >= last).then_some((moment, count))
}
