// Inner rows, as the search for the next cell sees them.
ghost use Rattle.std.specs.Prelude.{◌≡◌, ◌+◌, ◌≤◌, ◌∷◌, length, IfSome, refl, drop};
ghost use Rattle.rm_model.specs.Names.{IsLeastAbove};
ghost use Rattle.rm_nested.specs.Nested.{is_nested, IsFirstAbove};

use crate::inner_rows::InnerRows;
use crate::number::first_number;
use rm_group::{RowIndexes, append_from, numbers_from};
use rm_val::Oid;

/// Inner rows, in order of their control rows and then of their inner indexes.
#[derive(Clone, Copy, Drop)]
pub struct Nested<R> {
    /// The rows.
    pub rows: R,
}

impl<R: InnerRows> RowIndexes for Nested<R> {
    ghost is_row = { λ s now index. is_nested (R.is_inner s.rows now) index };

    ghost longest = { R.longest + 1 };

    ghost not_empty = { λ s now. refl };

    fn after(&self, index: &Oid, now: u32) -> Option<Oid> {
        next_from(&self.rows, first_number(index), &rest_of(index), now)
    }
}

// The next index after an inner one of a control row: of the row itself, or the first one of a row above.
fn next_from<R: InnerRows>(rows: &R, row: u32, rest: &Oid, now: u32) -> Option<Oid>
    ensures least { IsLeastAbove (is_nested (R.is_inner rows.now now)) (row ∷ rest.now) result }
    ensures fits { IfSome result (λ found. length found ≤ R.longest + 1) }
{
    if let Some(inner) = rows.inner_after(row, rest, now) {
        return Some(index_of(row, &inner));
    }
    first_above(rows, row, now)
}

// The first index of the control rows above one.
fn first_above<R: InnerRows>(rows: &R, row: u32, now: u32) -> Option<Oid>
    ensures first { IsFirstAbove (R.is_inner rows.now now) row result }
    ensures fits { IfSome result (λ found. length found ≤ R.longest + 1) }
{
    let mut last = row;
    while let Some(next) = rows.row_after(last) {
        if let Some(inner) = rows.inner_after(next, &Oid::new(), now) {
            return Some(index_of(next, &inner));
        }
        last = next;
    }
    None
}

// The index of an inner row.
fn index_of(row: u32, inner: &Oid) -> Oid
    requires { length inner.now ≤ 127 }
    ensures { result ≡ row ∷ inner.now }
{
    let mut index = Oid::from_slice(&[row]).unwrap();
    append_from(&mut index, inner, 0);
    index
}

// The numbers of an index after the first one.
fn rest_of(index: &Oid) -> Oid
    ensures { result ≡ drop 1 index.now }
{
    if index.len() == 0 {
        return Oid::new();
    }
    numbers_from(index, 1)
}
