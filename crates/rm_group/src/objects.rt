// The objects that are answered.
ghost use Rattle.std.specs.Prelude.{◌≡◌, ℕ, List, Bool};
ghost use Rattle.std.specs.List.{list_any};
ghost use Rattle.rm_model.specs.Cells.{is_of_column};
ghost use Rattle.rm_model.specs.Journal.{Journal};
ghost use Rattle.rm_model.specs.Counting.{Counting};
ghost use Rattle.rm_group.specs.Listed.{ListedTable, tables_of, is_listed, AreOfObjects, AreRefused};

use crate::group::Group;
use crate::instance::instance_of;
use rm_val::Oid;

/// Which objects a group answers, whether or not they have a value now. A Get of a name that has no value is answered
/// noSuchInstance under such an object, else noSuchObject (RFC 1905, section 4.2.1).
pub trait Objects: Group {
    /// Whether a name begins with the identifier of an object of the group.
    ghost objects: { List ℕ → Bool };

    /// Whether a name begins with the identifier of an object that can be set.
    ghost settable: { List ℕ → Bool };

    /// Whether a name begins with the identifier of an object of the group.
    fn has_object(name: &Oid) -> bool
        ensures { result ≡ objects name.now };

    /// Each cell that the group shows has a name that begins with one of its objects.
    ghost listed: { (settings : Counting) (journal : Journal) (now : ℕ) → AreOfObjects objects (Self.Group.cells settings journal now) };

    /// An object of the group that can't be set is notWritable (RFC 1905, section 4.2.5).
    ghost refused: { AreRefused objects settable Self.Group.alone };
}

/// The objects of a table, as data: its columns.
#[derive(Clone, Copy)]
pub struct TableObjects {
    /// The identifier of the table's entry.
    pub entry: &'static [u32],
    /// The numbers of its columns.
    pub columns: &'static [u32],
}

/// A group that lists its objects by its tables. All that a group says of its objects follows from the list (`Objects`): a table that
/// is left out of it is one whose cells the group may not show, and whose columns it may not refuse.
pub trait Tables: Group {
    /// The tables of the group.
    ghost tables: { List ListedTable };

    /// Whether a name begins with the identifier of an object that can be set.
    ghost can_be_set: { List ℕ → Bool };

    /// The tables of the group.
    fn tables() -> &'static [TableObjects]
        ensures { tables_of result.now ≡ tables };

    /// Each cell that the group shows has a name that begins with a column of one of them.
    ghost shows_listed: { (settings : Counting) (journal : Journal) (now : ℕ) → AreOfObjects (is_listed tables) (Self.Group.cells settings journal now) };

    /// A column of one of them that can't be set is notWritable (RFC 1905, section 4.2.5).
    ghost refuses_listed: { AreRefused (is_listed tables) can_be_set Self.Group.alone };
}

impl<G: Tables> Objects for G {
    ghost objects = { is_listed G.tables };

    ghost settable = { G.can_be_set };

    ghost listed = { G.shows_listed };

    ghost refused = { G.refuses_listed };

    fn has_object(name: &Oid) -> bool {
        is_listed(name, G::tables())
    }
}

/// Whether a name begins with the identifier of a column of one of these tables.
pub fn is_listed(name: &Oid, tables: &[TableObjects]) -> bool
    ensures { result ≡ is_listed (tables_of tables.now) name.now }
{
    is_of_one(name, tables)
}

fn is_of_one(name: &Oid, tables: &[TableObjects]) -> bool
    ensures { result ≡ list_any (λ table. is_of_column table.entry.now table.columns.now name.now) tables.now }
{
    tables.iter().any(|table| is_of_table(name, table))
}

// Whether a name begins with the identifier of a column of a table. No name begins with an entry that is longer than names are.
fn is_of_table(name: &Oid, table: &TableObjects) -> bool
    ensures { result ≡ is_of_column table.now.entry.now table.now.columns.now name.now }
{
    prove!(name.len() <= 128);
    match Oid::from_slice(table.entry) {
        Ok(entry) => is_of_column(name, &entry, table.columns),
        Err(_) => false,
    }
}

/// Whether a name begins with the identifier of one of these columns under the entry of a table.
pub fn is_of_column(name: &Oid, entry: &Oid, columns: &[u32]) -> bool
    ensures { result ≡ is_of_column entry.now columns.now name.now }
{
    instance_of(name, entry, columns).is_some()
}
