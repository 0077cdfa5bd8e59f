// The inner rows of the rows of a control table.
ghost use Rattle.std.specs.Prelude.{◌≡◌, ℕ, ◌≤◌, List, [], Bool, false, length, IfSome};
ghost use Rattle.rm_model.specs.Names.{IsLeastAbove};
ghost use Rattle.rm_model.specs.Numbers.{IsNumberAbove};

use rm_val::Oid;

/// The rows of a table each of which belongs to a row of a control table. The index of a row is the number of the control row, and
/// then the numbers of the inner index, as many as there may be: a number, a rank, a counted address.
pub trait InnerRows {
    /// The control rows that may have inner rows.
    ghost is_outer: { Self → ℕ → Bool };

    /// Which lists of numbers are the inner index of a row, of a control row and at a moment in milliseconds.
    ghost is_inner: { Self → ℕ → ℕ → List ℕ → Bool };

    /// No inner index has more numbers.
    ghost longest: { ℕ };

    /// The least control row above one that may have inner rows. None where there is none above.
    fn row_after(&self, row: u32) -> Option<u32>
        ensures { IsNumberAbove (is_outer self.now) row result };

    /// The least inner index of a control row above these numbers, in the order of names. Above the empty list it is the least of
    /// all. None where there is none above.
    fn inner_after(&self, row: u32, index: &Oid, now: u32) -> Option<Oid>
        ensures least { IsLeastAbove (is_inner self.now now row) index.now result }
        ensures fits { IfSome result (λ found. length found ≤ longest) };

    /// No inner index is empty.
    ghost not_empty: { (rows : Self) (now row : ℕ) → is_inner rows now row [] ≡ false };

    /// Only such control rows have inner rows.
    ghost of_outer: { (rows : Self) (now row : ℕ) (index : List ℕ) → is_outer rows row ≡ false → is_inner rows now row index ≡ false };

    /// An index fits into a name.
    ghost short: { longest ≤ 127 };
}
