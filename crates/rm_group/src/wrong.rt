// A verdict that names a binding.
ghost use Rattle.std.specs.Prelude.{◌≡◌, ◌+◌, ◌<◌};

use rm_model::Verdict;
use rm_val::ErrorStatus;

/// The verdict that this is wrong with the binding at a place, from 0.
pub fn wrong_at(place: usize, status: ErrorStatus) -> Verdict
    requires { place < 128 }
    ensures { result ≡ Verdict.Wrong status (place + 1) }
{
    Verdict::Wrong {
        status,
        index: place as u32 + 1,
    }
}
