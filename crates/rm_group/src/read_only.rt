// Objects of which none is writable.
ghost use Rattle.std.specs.Prelude.{length};
ghost use Rattle.rm_model.specs.Cells.{is_of_column};
ghost use Rattle.rm_model.specs.Judgement.{IsFirstFault};
ghost use Rattle.rm_group.specs.Alone.{alone_at, read_only};

use crate::assigns::Assigns;
use crate::objects::is_of_column;
use crate::wrong::wrong_at;
use rm_model::Verdict;
use rm_val::{ErrorStatus, Oid};

/// The first pass of a Set on columns under the entry of a table, of which none is writable (RFC 1905, section 4.2.5):
/// notWritable at the first binding whose name begins with the identifier of one of them.
pub fn judge_read_only<A: Assigns>(set: &A, entry: &Oid, columns: &[u32]) -> Verdict
    ensures { let bindings = A.bindings set.now in IsFirstFault (length bindings) (alone_at (read_only (is_of_column entry.now columns.now)) bindings) result }
{
    for place in 0..set.count() {
        if is_of_column(set.name(place), entry, columns) {
            return wrong_at(place, ErrorStatus::NotWritable);
        }
    }
    Verdict::Fine
}
