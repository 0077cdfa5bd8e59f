// What runs do with a case.
use crate::case::Case;
use crate::difference::Difference;
use crate::expected::Expected;
use crate::outside::{FailingCall, Kind, Outside};
use case_text::Trouble;
use std::alloc::Global;

/// The most calls of a kind that fail in turn.
const MOST_CALLS: usize = 10_000;

/// The first difference between a case and its runs, if there is one.
pub fn try_case(alloc: Global, case: &Case) -> Result<Option<Difference>, Trouble> {
    let Some(fronts) = case.fronts else {
        return difference_over(alloc, case, None);
    };
    for front in fronts.low..fronts.end {
        if let Some(difference) = difference_over(alloc, case, Some(front))? {
            return Ok(Some(difference));
        }
    }
    Ok(None)
}

// The run of the case, the one in pieces where it says so, and those in which a call fails where it says that each does. Of a capture
// that the case cuts only so many octets are there.
fn difference_over(
    alloc: Global,
    case: &Case,
    front: Option<u32>,
) -> Result<Option<Difference>, Trouble> {
    let text = case.text()?;
    let mut outside = Outside::new(alloc, case, front, text.len())?;
    let mut found = difference_of(alloc, case, &mut outside, text.as_str())?;
    if found.is_none()
        && let Some(most) = case.pieces
    {
        let mut outside = Outside::new(alloc, case, front, text.len())?;
        outside.give_pieces(most)?;
        found = difference_of(alloc, case, &mut outside, text.as_str())?;
    }
    if found.is_some() || !case.each_call_fails {
        return Ok(found);
    }
    for kind in [Kind::Read, Kind::Put, Kind::Link] {
        if let Some(difference) = difference_by(alloc, case, front, text.as_str(), kind)? {
            return Ok(Some(difference));
        }
    }
    Ok(None)
}

// The first difference of a run of the case in which no call fails. The text is all that the case writes.
fn difference_of(
    alloc: Global,
    case: &Case,
    outside: &mut Outside,
    text: &str,
) -> Result<Option<Difference>, Trouble> {
    let status = outside.run(alloc, case)?;
    Expected::whole(case, text).difference(alloc, case, status, outside)
}

// The runs in which call 1 of a kind fails, call 2, and so on, up to the first run that ends before its call.
fn difference_by(
    alloc: Global,
    case: &Case,
    front: Option<u32>,
    text: &str,
    kind: Kind,
) -> Result<Option<Difference>, Trouble> {
    for number in 1..=MOST_CALLS {
        let call = FailingCall { kind, number };
        let (is_last, found) = run_failing(alloc, case, front, text, call)?;
        if is_last || found.is_some() {
            return Ok(found);
        }
    }
    Err(Trouble::Form("too many calls before this line"))
}

// A run in which a call fails. It is the last one, and as the case says, where it ends before that call: then a call behind the run is
// the one that fails.
fn run_failing(
    alloc: Global,
    case: &Case,
    front: Option<u32>,
    text: &str,
    call: FailingCall,
) -> Result<(bool, Option<Difference>), Trouble> {
    let mut outside = Outside::new(alloc, case, front, text.len())?;
    outside.fail(call)?;
    let status = outside.run(alloc, case)?;
    let is_last = outside.fails_at(call.kind);
    let expected = if is_last {
        Expected::whole(case, text)
    } else {
        Expected::failing(call, text, outside.text()?)
    };
    let found = expected.difference(alloc, case, status, &outside)?;
    Ok((is_last, found))
}
