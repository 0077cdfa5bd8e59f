// Where a name stands in a table.
ghost use Rattle.std.specs.Prelude.{◌≡◌, ◌+◌, ◌≤◌, ◌++◌, length, drop};
ghost use Rattle.rm_model.specs.Cells.{instance_of};

use rm_model::Instance;
use rm_val::Oid;

/// The column and the index of a name under the entry of a table. None where the name doesn't begin with the
/// identifier of one of these columns.
pub fn instance_of(name: &Oid, entry: &Oid, columns: &[u32]) -> Option<Instance>
    ensures { result ≡ instance_of entry.now columns.now name.now }
{
    if !name.starts_with(entry) {
        return None;
    }
    let mut at = entry.len();
    let column = name.take_int(&mut at)?;
    if !columns.contains(&column) {
        return None;
    }
    let index = numbers_from(name, at);
    Some(Instance { column, index })
}

/// The numbers of a name from a place on.
pub fn numbers_from(name: &Oid, from: usize) -> Oid
    requires { from ≤ length name.now }
    ensures { result ≡ drop from name.now }
{
    let mut numbers = Oid::new();
    prove!(name.len() <= 128);
    append_from(&mut numbers, name, from);
    numbers
}

/// Appends the numbers of another name from a place on.
pub fn append_from(name: &mut Oid, other: &Oid, from: usize)
    requires within { from ≤ length other.now }
    requires room { length name.old + length other.now ≤ 128 + from }
    ensures { name.new ≡ name.old ++ drop from other.now }
{
    for place in from..other.len() {
        name.push(other.at(place)).unwrap();
    }
}
