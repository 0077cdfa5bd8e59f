ghost use Rattle.std.specs.Prelude.{ℕ, List, Option};
ghost use Rattle.rm_edge.specs.Clock.{Tells};

/// A clock. It has no fault, and a later moment may be lower than an earlier one.
pub trait Clock {
    /// The moments told so far, in milliseconds, where the clock shows them.
    ghost told: { Self → Option (List ℕ) };

    /// Tells a moment, in milliseconds. A clock that shows its moments may cease to, for good.
    fn now(&mut self) -> u32
        ensures { Tells (told self.old) (told self.new) result };
}
