// Keys that can be told the other way round.

ghost use Rattle.std.specs.Prelude.{◌≡◌};

use rm_evicting::Key;

/// Keys of two parts, which can be told the other way round.
pub trait Reversible: Key {
    /// The key with its parts the other way round.
    ghost reversing: { Self → Self };

    /// The key with its parts the other way round.
    fn reversed(&self) -> Self
        ensures { result ≡ reversing self.now };

    /// Told so twice, it is the key itself.
    ghost twice: { (key : Self) → reversing (reversing key) ≡ key };
}
