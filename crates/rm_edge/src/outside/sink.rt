ghost use Rattle.std.specs.Prelude.{ℕ, List, Option};
ghost use Rattle.rm_edge.specs.Outside.{Puts, HasCause};

use super::Failed;

/// Octets put one after the other.
pub trait Sink {
    /// The octets put so far, where the sink tells them.
    ghost content: { Self → Option (List ℕ) };

    /// How often a put has failed. The count never falls.
    ghost faults: { Self → ℕ };

    /// Adds the whole piece behind the octets put so far. A put that fails adds a front of the
    /// piece, possibly none of it.
    ///
    /// Failed comes only where the count of faults has risen.
    fn put(&mut self, piece: &[u8]) -> Result<(), Failed>
        ensures octets { Puts (content self.old) (content self.new) piece.now result }
        ensures cause { HasCause (faults self.old) (faults self.new) result };
}
