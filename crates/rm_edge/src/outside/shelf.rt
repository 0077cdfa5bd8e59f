ghost use Rattle.std.specs.Prelude.{◌≡◌, ◌≤◌, ℕ, List, length, IfOk, IsErr};
ghost use Rattle.rm_edge.specs.Outside.{Held, Reads, HasCause};
ghost use Rattle.rm_edge.specs.Shelves.{KeepsShelf};

use super::Failed;

/// Files by their names. What a name holds never changes.
pub trait Shelf {
    /// What the shelf tells of a name: its octets, that it has no file, or nothing.
    ghost held: { Self → List ℕ → Held };

    /// How often a read of a name has failed. A name's count never falls. Names of which the shelf tells no file may share
    /// a count.
    ghost faults: { Self → List ℕ → ℕ };

    /// Reads the file's octets from place `at` on, counted from 0, into the front of `into`, and
    /// answers how many it read. It reads at least one where there is one and `into` has room, so
    /// that 0 for a buffer with room is the end of the file, or a place behind it.
    ///
    /// Failed comes only where the name's count of faults has risen. A name without a file always
    /// fails. A read that doesn't fail leaves all counts as they were, and one that fails those of
    /// the other names of which the shelf tells a file.
    fn read(&mut self, name: &str, at: u64, into: &mut [u8]) -> Result<usize, Failed>
        ensures most { IfOk result (λ count. count ≤ length into.old) }
        ensures shelf { KeepsShelf held faults self.old self.new (λ each. each ≡ name.now) (IsErr result) }
        ensures octets { Reads (held self.old name.now) at into.new result }
        ensures cause { HasCause (faults self.old name.now) (faults self.new name.now) result };
}
