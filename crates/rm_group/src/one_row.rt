// A table with one row.
ghost use Rattle.std.specs.Prelude.{◌≡◌, [], ◌∷◌, refl};
ghost use Rattle.std.specs.Str.{bytes_eq};

use crate::row_indexes::RowIndexes;
use rm_val::Oid;

/// The rows of a table that has one row, whose index is this number. The scalars of a group are such a table: the
/// instance of each scalar is the number 0 (RFC 1157, section 3.2.6.3).
#[derive(Clone, Copy)]
pub struct OneRow {
    /// The one number of the row's index.
    pub number: u32,
}

impl OneRow {
    /// Whether these numbers are the index of the row.
    pub fn has(self, index: &Oid) -> bool
        ensures { result ≡ bytes_eq index.now (self.number ∷ []) }
    {
        index.compare(&self.index()).is_eq()
    }

    fn index(self) -> Oid
        ensures { result ≡ self.number ∷ [] }
    {
        Oid::from_slice(&[self.number]).unwrap()
    }
}

impl RowIndexes for OneRow {
    ghost is_row = { λ rows now index. bytes_eq index (rows.number ∷ []) };

    ghost longest = { 1 };

    ghost not_empty = { λ rows now. refl };

    fn after(&self, index: &Oid, _now: u32) -> Option<Oid> {
        let row = self.index();
        if index.compare(&row).is_lt() {
            Some(row)
        } else {
            None
        }
    }
}
