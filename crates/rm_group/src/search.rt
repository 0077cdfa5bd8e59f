// The search for the next cell of a table.
ghost use Rattle.std.specs.Prelude.{◌≡◌, ◌+◌, ◌≤◌, length, drop, find, nat_lt, IsTrue, IfSome};
ghost use Rattle.rm_val.specs.Spellable.{IsSpellable};
ghost use Rattle.rm_model.specs.Names.{IsLeastAbove};
ghost use Rattle.rm_model.specs.Cells.{is_cell_name};
ghost use Rattle.rm_model.specs.ControlRows.{cell_name};
ghost use Rattle.rm_group.specs.Search.{are_rising, start_of, start_behind, is_present, IsNextInstance};

use crate::instance::{append_from, numbers_from};
use crate::row_indexes::RowIndexes;
use rm_model::Instance;
use rm_val::Oid;
use std::cmp::Ordering;

/// The least name of a cell above that one (RFC 1905, section 4.2.2), in the table with this entry, these columns and
/// these rows at a moment in milliseconds. None where the table has no cell above. The rows are asked twice at most.
pub fn next_name<R: RowIndexes>(
    rows: &R,
    entry: &Oid,
    columns: &[u32],
    name: &Oid,
    now: u32,
) -> Option<Oid>
    requires rising { IsTrue (are_rising columns.now) }
    requires fits { length entry.now + 1 + R.longest ≤ 128 }
    requires spelling { IsSpellable entry.now }
    ensures least { IsLeastAbove (is_cell_name entry.now columns.now (R.is_row rows.now now)) name.now result }
    ensures spelling { IfSome result IsSpellable }
{
    let start = start_of(name, entry)?;
    let next = next_instance(rows, columns, &start, now)?;
    Some(name_of(entry, &next))
}

// Where the cells above a name begin in the table with that entry: behind an instance. None where the name is above
// all of them.
fn start_of(name: &Oid, entry: &Oid) -> Option<Instance>
    ensures { result ≡ start_of entry.now name.now }
{
    if name.starts_with(entry) {
        return Some(start_behind(name, entry.len()));
    }
    match name.compare(entry) {
        Ordering::Less => Some(Instance {
            column: 0,
            index: Oid::new(),
        }),
        _ => None,
    }
}

// The same for a name whose numbers from a place on follow the entry.
fn start_behind(name: &Oid, from: usize) -> Instance
    requires { from ≤ length name.now }
    ensures { result ≡ start_behind (drop from name.now) }
{
    let mut at = from;
    match name.take_int(&mut at) {
        Some(column) => Instance {
            column,
            index: numbers_from(name, at),
        },
        None => Instance {
            column: 0,
            index: Oid::new(),
        },
    }
}

// The first instance with a cell behind that one, column by column.
fn next_instance<R: RowIndexes>(
    rows: &R,
    columns: &[u32],
    start: &Instance,
    now: u32,
) -> Option<Instance>
    requires { IsTrue (are_rising columns.now) }
    ensures next { IsNextInstance columns.now (R.is_row rows.now now) start.now result }
    ensures fits { IfSome result (λ next. length next.index ≤ R.longest) }
{
    if let Some(index) = index_behind(rows, columns, start, now) {
        return Some(Instance {
            column: start.column,
            index,
        });
    }
    let column = column_above(columns, start.column)?;
    let index = rows.after(&Oid::new(), now)?;
    Some(Instance { column, index })
}

// The index of the first cell behind an instance in its own column.
fn index_behind<R: RowIndexes>(rows: &R, columns: &[u32], start: &Instance, now: u32) -> Option<Oid>
    ensures least { IsLeastAbove (λ index. is_present columns.now (R.is_row rows.now now) (record { column = start.now.column; index = index })) start.now.index result }
    ensures fits { IfSome result (λ index. length index ≤ R.longest) }
{
    if !columns.contains(&start.column) {
        return None;
    }
    rows.after(&start.index, now)
}

// The first of these columns that is above one.
fn column_above(columns: &[u32], column: u32) -> Option<u32>
    ensures { result ≡ find (λ other. nat_lt column other) columns.now }
{
    columns.iter().copied().find(|&other| column < other)
}

// The name of an instance.
fn name_of(entry: &Oid, instance: &Instance) -> Oid
    requires { length entry.now + 1 + length instance.now.index ≤ 128 }
    ensures { result ≡ cell_name entry.now instance.now.column instance.now.index }
{
    let mut name = entry.copied();
    name.push(instance.column).unwrap();
    append_from(&mut name, &instance.index, 0);
    name
}
