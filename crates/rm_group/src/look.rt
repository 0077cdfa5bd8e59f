// The readings of the variables that an alarm may sample.
ghost use Rattle.std.specs.Prelude.{◌≡◌, ℕ};
ghost use Rattle.rm_group.specs.Look.{Readings};

use rm_model::Reading;
use rm_val::Oid;

/// What can be read of the variables that an alarm may sample.
pub trait Look {
    /// What each variable reads at a moment in milliseconds.
    ghost readings: { Self → ℕ → Readings };

    /// What the variable with that name reads at a moment in milliseconds. None where there is no reading for the name.
    fn reading(&self, name: &Oid, now: u32) -> Option<Reading>
        ensures { result ≡ readings self.now now name.now };
}
