// The rows of a control table, as the search for the next cell sees them.
ghost use Rattle.rm_status.specs.Indexes.{has_number, is_index_in};
ghost use Rattle.std.proofs.Common.{ap};

use crate::controls::Controls;
use rm_columns::ControlRow;
use rm_group::RowIndexes;
use rm_val::Oid;

impl<C: ControlRow> RowIndexes for Controls<C> {
    ghost is_row = { λ rows now index. is_index_in C.form.table rows index };

    ghost longest = { C.form.table.indexing.longest };

    ghost not_empty = { λ rows now. ap (has_number rows) C.form.table.indexed.not_empty };

    fn after(&self, index: &Oid, _now: u32) -> Option<Oid> {
        let row = self.first_behind(index)?;
        Some(C::index(row.index))
    }
}
