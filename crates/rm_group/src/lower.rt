// The judgement of two groups.
ghost use Rattle.std.specs.Prelude.{◌≡◌, ℕ, Option};
ghost use Rattle.std.specs.Option.{option_or};
ghost use Rattle.rm_val.specs.declared.error.ErrorStatus.{ErrorStatus};
ghost use Rattle.rm_model.specs.Judgement.{IsFirstFault};
ghost use Rattle.rm_group.specs.Alone.{IsWithin};

use rm_model::Verdict;

/// The verdict of two groups on a Set, by the verdict of each: it names the lower of their bindings, by the first verdict
/// where both name the same.
pub fn lower_verdict(first: Verdict, second: Verdict) -> Verdict
    ensures lowest { (count : ℕ) (fault other_fault : ℕ → Option ErrorStatus) → IsFirstFault count fault first → IsFirstFault count other_fault second
        → IsFirstFault count (λ place. option_or (fault place) (other_fault place)) result }
    ensures within { (count : ℕ) → IsWithin count first → IsWithin count second → IsWithin count result }
    ensures fine { result ≡ Verdict.Fine → (first ≡ Verdict.Fine) × (second ≡ Verdict.Fine) }
{
    match (first, second) {
        (Verdict::Wrong { index, .. }, Verdict::Wrong { index: other, .. }) if other < index =>
            second,
        (Verdict::Fine, _) => second,
        _ => first,
    }
}
