// Indexes of one number.
ghost use Rattle.std.specs.Prelude.{◌≡◌};
ghost use Rattle.rm_status.specs.Rows.{row_number};

use rm_val::Oid;

/// The one number of an index, and 0, which is no row's, for any other index.
pub fn row_number(index: &Oid) -> u32
    ensures { result ≡ row_number index.now }
{
    if index.len() == 1 { index.at(0) } else { 0 }
}
