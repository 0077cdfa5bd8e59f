// What rows count.
ghost use Rattle.std.specs.Prelude.{◌≡◌};

use rm_evicting::Blank;

/// What the mentions of a key add up to.
pub trait Counts: Blank {
    /// A value with a gain added.
    ghost plus: { Self → Self → Self };

    /// Adds a gain.
    fn add(&mut self, gain: &Self)
        ensures { self.new ≡ plus self.old gain.now };
}
