// The numbers of indexes.
ghost use Rattle.std.specs.Prelude.{◌≡◌, ℕ, ◌≤◌, Bool, false, [], ◌∷◌, length, IfSome, slice_index};
ghost use Rattle.rm_model.specs.Names.{IsLeastAbove};
ghost use Rattle.rm_model.specs.Numbers.{IsNumberAbove};
ghost use Rattle.rm_nested.specs.Nested.{is_number};
ghost use Rattle.rm_nested.specs.NumberedRows.{two_numbers};

use rm_val::Oid;

/// The first number of an index, 0 where it has none.
pub fn first_number(index: &Oid) -> u32
    ensures { result ≡ slice_index index.now 0 }
{
    if index.len() == 0 { 0 } else { index.at(0) }
}

/// The numbers of an index that has two. None for any other index.
pub fn two_numbers(index: &Oid) -> Option<(u32, u32)>
    ensures { result ≡ two_numbers index.now }
{
    if index.len() == 2 {
        Some((index.at(0), index.at(1)))
    } else {
        None
    }
}

/// The least index above some numbers, where each is one number and none is 0, by the least number above the first of them.
pub fn one_number_above(index: &Oid, above: Option<u32>) -> Option<Oid>
    ensures least { (test : ℕ → Bool) → test 0 ≡ false → IsNumberAbove test (slice_index index.now 0) above → IsLeastAbove (is_number test) index.now result }
    ensures fits { IfSome result (λ found. length found ≤ 1) }
{
    let _ = index;
    match above {
        Some(number) => Some(one_number(number)),
        None => None,
    }
}

// The index that is one number.
fn one_number(number: u32) -> Oid
    ensures { result ≡ number ∷ [] }
{
    Oid::from_slice(&[number]).unwrap()
}
