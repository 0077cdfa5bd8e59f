// Where a walk goes on behind the numbers that it has asked for.
ghost use Rattle.std.specs.Prelude.{◌≡◌, ◌≤◌, Some, IfSome, length, drop, slice_get};
ghost use Rattle.rm_walk_places.specs.Within.{AreBounds};
ghost use Rattle.rm_walk_places.specs.WalkPlaces.{IsWalkPlace};
ghost use Rattle.rm_walk_places.specs.Lowered.{kept, kept_here, lowered, reached};

use crate::places::{Bounds, Reached, WalkPlace};
use rm_val::Oid;
use std::cmp::Ordering;

/// Where a walk goes on behind some numbers: a mark, one number for each of the bounds, and maybe one more. They may be fewer or more, and
/// beyond the bounds.
pub fn walk_place(bounds: &[Bounds], numbers: &Oid) -> WalkPlace
    requires few { length bounds.now ≤ 127 }
    requires some { AreBounds bounds.now }
    ensures { IsWalkPlace bounds.now numbers.now result }
{
    let Some(mark) = number_at(numbers, 0) else {
        return WalkPlace {
            mark: 0,
            reached: None,
        };
    };
    WalkPlace {
        mark,
        reached: reached(bounds, numbers),
    }
}

// The number at a place. None where there is none.
fn number_at(numbers: &Oid, place: usize) -> Option<u32>
    ensures { result ≡ slice_get numbers.now place }
{
    if place < numbers.len() {
        Some(numbers.at(place))
    } else {
        None
    }
}

// The greatest numbers within bounds that, behind a mark, aren't above these. None where there are none.
fn reached(bounds: &[Bounds], numbers: &Oid) -> Option<Reached>
    requires few { length bounds.now ≤ 127 }
    ensures { result ≡ reached bounds.now (drop 1 numbers.now) }
{
    let kept = kept(bounds, numbers)?;
    let lowered = lowered(bounds, numbers, kept);
    let protocol = if kept < bounds.len() {
        Some(u32::MAX)
    } else {
        number_at(numbers, kept + 1)
    };
    Some(Reached {
        numbers: lowered,
        protocol,
    })
}

// How many of the numbers behind a mark are kept in those reached. None where none are reached.
fn kept(bounds: &[Bounds], numbers: &Oid) -> Option<usize>
    requires few { length bounds.now ≤ 127 }
    ensures value { result ≡ kept bounds.now (drop 1 numbers.now) }
    ensures most { IfSome result (λ count. count ≤ length bounds.now) }
{
    let mut kept = Some(0);
    for place in (0..bounds.len()).rev() {
        kept = kept_here(&bounds[place], number_at(numbers, place + 1), kept);
    }
    kept
}

// The same from a place on, by the number there and by how many are kept from the next place on.
fn kept_here(bound: &Bounds, number: Option<u32>, behind: Option<usize>) -> Option<usize>
    requires { IfSome behind (λ count. count ≤ 127) }
    ensures { result ≡ kept_here bound.now number behind }
{
    let number = number?;
    if number < bound.least {
        return None;
    }
    match behind {
        Some(count) if number <= bound.greatest => Some(count + 1),
        _ if number > bound.least => Some(0),
        _ => None,
    }
}

// The first numbers behind a mark, as many as are kept, then a lesser number, and then the greatest ones.
fn lowered(bounds: &[Bounds], numbers: &Oid, count: usize) -> Oid
    requires few { length bounds.now ≤ 127 }
    requires stands { kept bounds.now (drop 1 numbers.now) ≡ Some count }
    ensures { result ≡ lowered count bounds.now (drop 1 numbers.now) }
{
    let mut lowered = Oid::new();
    for (place, bound) in bounds.iter().enumerate() {
        let number = match place.cmp(&count) {
            Ordering::Less => numbers.at(place + 1),
            Ordering::Equal => bound.greatest.min(numbers.at(place + 1) - 1),
            Ordering::Greater => bound.greatest,
        };
        lowered.push(number).unwrap();
    }
    lowered
}
