// The indexes of the rows of a control table, and what goes by them.
ghost use Rattle.std.specs.Prelude.{◌≡◌, ◌≤◌, length, drop};
ghost use Rattle.rm_model.specs.ControlTable.{RowRules, no_rules};
ghost use Rattle.rm_model.specs.Indexing.{Indexing, one_number};

use rm_val::Oid;

/// Which indexes the rows of a control table can have, each with the number under which code holds its row, and what goes by the
/// index of a row.
pub trait RowKeys {
    /// The indexes and their numbers.
    ghost indexing: { Indexing };

    /// What goes by the index of a row.
    ghost rules: { RowRules };

    /// The index of the row that has a number.
    fn index(number: u32) -> Oid
        ensures { result ≡ indexing.index_of number };

    /// The number of the row whose index is what a name has from a place on. None where that can be the index of no row.
    fn number(name: &Oid, from: usize) -> Option<u32>
        requires { from ≤ length name.now }
        ensures { result ≡ indexing.number_of (drop from name.now) };

    /// Whether a row can have a number.
    fn is_row(number: u32) -> bool
        ensures { result ≡ indexing.is_row number };

    /// Whether a column of a row, by the row's number, can never be set.
    fn is_fixed(row: u32, column: u32) -> bool
        ensures { result ≡ rules.is_fixed (indexing.index_of row) column };

    /// Whether a row, by its number, was there from the beginning and stays.
    fn stays(row: u32) -> bool
        ensures { result ≡ rules.stays (indexing.index_of row) };
}

/// The keys of a table of RFC 1757: an index is one number, 1 to 65535, by which code holds the row, and all rows are alike.
pub struct OneNumber;

impl RowKeys for OneNumber {
    ghost indexing = { one_number };

    ghost rules = { no_rules };

    fn index(number: u32) -> Oid {
        Oid::from_slice(&[number]).unwrap()
    }

    fn number(name: &Oid, from: usize) -> Option<u32> {
        if name.len() - from == 1 {
            Some(name.at(from))
        } else {
            None
        }
    }

    fn is_row(number: u32) -> bool {
        1 <= number && number <= 65535
    }

    fn is_fixed(_row: u32, _column: u32) -> bool {
        false
    }

    fn stays(_row: u32) -> bool {
        false
    }
}
