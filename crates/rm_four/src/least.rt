// Where the variables of four groups begin.
ghost use Rattle.std.specs.Prelude.{◌≤◌, length};
ghost use Rattle.rm_model.specs.Cells.{Cells};
ghost use Rattle.rm_group.specs.Least.{AreFrom};
ghost use Rattle.rm_four.specs.Four.{first_of};

use rm_group::lesser;

/// Where the variables of four groups begin, by where those of each do: the least of these names.
pub fn least_of(
    first: &'static [u32],
    second: &'static [u32],
    third: &'static [u32],
    fourth: &'static [u32],
) -> &'static [u32]
    ensures from { (one two three four : Cells) → AreFrom first.now one → AreFrom second.now two
        → AreFrom third.now three → AreFrom fourth.now four
        → AreFrom result.now (λ name. first_of (one name) (two name) (three name) (four name)) }
    ensures fits { length first.now ≤ 128 → length second.now ≤ 128 → length third.now ≤ 128 → length fourth.now ≤ 128
        → length result.now ≤ 128 }
{
    let of_two = lesser(first, second);
    let of_three = lesser(of_two, third);
    lesser(of_three, fourth)
}
