// Where the variables of groups begin.
ghost use Rattle.std.specs.Prelude.{◌≡◌, ◌≤◌, length, if◌then◌else◌};
ghost use Rattle.std.specs.Ordering.{nat_cmp, is_lt};
ghost use Rattle.std.specs.Option.{option_or};
ghost use Rattle.std.specs.Cmp.Lexicographic.{slice_cmp};
ghost use Rattle.rm_model.specs.Cells.{Cells};
ghost use Rattle.rm_group.specs.Least.{AreFrom};

use rm_val::Oid;

/// Whether a name is below that one.
pub fn is_under(name: &Oid, least: &[u32]) -> bool
    requires { length least.now ≤ 128 }
    ensures { result ≡ is_lt (slice_cmp nat_cmp name.now least.now) }
{
    name.compare(&Oid::from_slice(least).unwrap()).is_lt()
}

/// Whether the first of two names is below the second.
pub(crate) fn is_before(first: &[u32], second: &[u32]) -> bool
    ensures { result ≡ is_lt (slice_cmp nat_cmp first.now second.now) }
{
    first.cmp(second).is_lt()
}

/// The lesser of two names, the first one where neither is below the other. Where the variables of two groups begin at these, those of
/// both begin at it.
pub fn lesser(first: &'static [u32], second: &'static [u32]) -> &'static [u32]
    ensures value { result.now ≡ (if is_lt (slice_cmp nat_cmp second.now first.now) then second.now else first.now) }
    ensures from { (cells others : Cells) → AreFrom first.now cells → AreFrom second.now others
        → AreFrom result.now (λ name. option_or (cells name) (others name)) }
{
    if is_before(second, first) {
        second
    } else {
        first
    }
}
