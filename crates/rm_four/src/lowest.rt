// The verdict of four groups.
ghost use Rattle.std.specs.Prelude.{◌≡◌, ℕ, Option};
ghost use Rattle.rm_val.specs.declared.error.ErrorStatus.{ErrorStatus};
ghost use Rattle.rm_model.specs.Judgement.{IsFirstFault};
ghost use Rattle.rm_group.specs.Alone.{IsWithin};
ghost use Rattle.rm_four.specs.Four.{first_of};

use rm_group::lower_verdict;
use rm_model::Verdict;

/// The verdict of four groups on a Set, by the verdict of each: it names the lowest of their bindings, by the first verdict that names it.
pub fn lowest_verdict(first: Verdict, second: Verdict, third: Verdict, fourth: Verdict) -> Verdict
    ensures lowest { (count : ℕ) (one two three four : ℕ → Option ErrorStatus) → IsFirstFault count one first → IsFirstFault count two second
        → IsFirstFault count three third → IsFirstFault count four fourth
        → IsFirstFault count (λ place. first_of (one place) (two place) (three place) (four place)) result }
    ensures within { (count : ℕ) → IsWithin count first → IsWithin count second → IsWithin count third → IsWithin count fourth → IsWithin count result }
    ensures fine { result ≡ Verdict.Fine
        → (((first ≡ Verdict.Fine) × (second ≡ Verdict.Fine)) × (third ≡ Verdict.Fine)) × (fourth ≡ Verdict.Fine) }
{
    let of_two = lower_verdict(first, second);
    let of_three = lower_verdict(of_two, third);
    lower_verdict(of_three, fourth)
}
