// What the columns of a pair show.
ghost use Rattle.std.specs.Prelude.{◌≡◌, ◌≤◌};
ghost use Rattle.rm_val.specs.Val.{val_of};
ghost use Rattle.rm_val.specs.Spellable.{HasSpelling};
ghost use Rattle.rm_keyed.specs.Addresses.{address_pair};
ghost use Rattle.rm_matrix.specs.Shown.{kept_value};

use crate::matrix_rows::MatrixRows;
use rm_keyed::AddressPair;
use rm_sourced::counter_value;
use rm_val::Value;

/// The numbers of the columns of matrixSDTable and of matrixDSTable (RFC 1757, section 5): the source, the destination, the control row,
/// and the counts.
pub(crate) const PAIR_COLUMNS: &[u32] = &[1, 2, 3, 4, 5, 6];

/// What a column of the pair of two addresses shows, of a row.
pub(crate) fn pair_value<'a>(
    row: u32,
    rows: &MatrixRows,
    source: &'a [u8; 6],
    dest: &'a [u8; 6],
    column: u32,
) -> Value<'a>
    requires { row ≤ 65535 }
    ensures value { val_of result ≡ kept_value row rows.now (address_pair source.now dest.now) column }
    ensures spelling { HasSpelling (val_of result) }
{
    match column {
        1 => Value::Octets(source.as_slice()),
        2 => Value::Octets(dest.as_slice()),
        3 => Value::Int(row as i32),
        _ => {
            let pair = AddressPair::new(*source, *dest);
            counter_value(&rows.pairs, &pair, column)
        }
    }
}
