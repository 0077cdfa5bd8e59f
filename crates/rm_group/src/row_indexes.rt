// The rows of a table.
ghost use Rattle.std.specs.Prelude.{◌≡◌, ℕ, ◌≤◌, List, [], Bool, false, length, IfSome};
ghost use Rattle.rm_model.specs.Names.{IsLeastAbove};

use rm_val::Oid;

/// The rows of a table, as the search for the next cell sees them: by the numbers of their index.
pub trait RowIndexes {
    /// Which lists of numbers are the index of a row at a moment in milliseconds.
    ghost is_row: { Self → ℕ → List ℕ → Bool };

    /// No index has more numbers.
    ghost longest: { ℕ };

    /// No index is empty.
    ghost not_empty: { (rows : Self) (now : ℕ) → is_row rows now [] ≡ false };

    /// The least index of a row above these numbers, in the order of names. Above the empty list it is the least
    /// of all. None where there is no row above.
    fn after(&self, index: &Oid, now: u32) -> Option<Oid>
        ensures least { IsLeastAbove (is_row self.now now) index.now result }
        ensures fits { IfSome result (λ found. length found ≤ longest) };
}
