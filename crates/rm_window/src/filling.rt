ghost use Rattle.std.specs.Prelude.{◌≡◌, ◌≤◌, ◌<◌, ◌+◌, ◌^◌, ℕ, List, length, IfOk, IsErr};
ghost use Rattle.rm_edge.specs.Outside.{File, Absent, HasCause};
ghost use Rattle.rm_edge.specs.Shelves.{KeepsShelf};
ghost use Rattle.rm_window.specs.Filling.{Fills};

use rm_edge::{Failed, Shelf};

/// Reads a file's octets from place `at` on, until the buffer is full or the file ends, and answers how many it read.
/// Failed comes only where a read failed.
pub fn fill<S: Shelf>(shelf: &mut S, name: &str, at: u64, into: &mut [u8]) -> Result<usize, Failed>
    requires near { at + length into.old < 2 ^ 64 }
    ensures most { IfOk result (λ count. count ≤ length into.old) }
    ensures shelf { KeepsShelf S.held S.faults shelf.old shelf.new (λ each. each ≡ name.now) (IsErr result) }
    ensures cause { HasCause (S.faults shelf.old name.now) (S.faults shelf.new name.now) result }
    ensures octets { (bytes : List ℕ) → S.held shelf.old name.now ≡ File bytes → IfOk result (λ count. Fills bytes at count into.new) }
    ensures absent { S.held shelf.old name.now ≡ Absent → 0 < length into.old → IsErr result }
{
    let mut filled = 0;
    while filled < into.len() {
        let count = shelf.read(name, at + filled as u64, &mut into[filled..])?;
        if count == 0 {
            return Ok(filled);
        }
        filled += count;
    }
    Ok(filled)
}
