// Tables of rows, as they stand beside their data sources.

use crate::sourced::Sourced;
use rm_group::TableObjects;
use rm_keyed::KeyTable;
use rm_val::{Oid, Value};
use std::marker::PhantomData;

/// A table of rows, shown by the parts that have the rows of a data source each.
#[derive(Drop)]
pub(crate) struct OfSource<T> {
    table: PhantomData<T>,
}

impl<T: KeyTable> KeyTable for OfSource<T> {
    ghost use Rattle.rm_sourced.specs.Shown.{key_in_rows, value_in_rows};

    type Part = Sourced<T::Key, T::Part>;

    type Key = T::Key;

    ghost key_at = { key_in_rows T.key_at };

    ghost is_open = { T.is_open };

    ghost longest = { T.longest };

    ghost value_of = { value_in_rows T.value_of };

    ghost entry = { T.entry };

    ghost columns = { T.columns };

    fn objects() -> TableObjects {
        T::objects()
    }

    fn is_open(now: u32) -> bool {
        T::is_open(now)
    }

    fn index_above(part: &Sourced<T::Key, T::Part>, numbers: &Oid) -> Option<Oid> {
        T::index_above(&part.rows, numbers)
    }

    fn value<'a>(
        row: u32,
        part: &'a Sourced<T::Key, T::Part>,
        index: &Oid,
        column: u32,
    ) -> Option<Value<'a>> {
        T::value(row, &part.rows, index, column)
    }

    ghost not_empty = { λ part. T.not_empty part.rows };

    ghost short = { T.short };

    ghost rising = { T.rising };

    ghost named = { T.named };

    ghost fits = { T.fits };
}
