// The rows that the directory has from the beginning, as they are held.
ghost use Rattle.std.specs.Prelude.{◌≡◌, ℕ, [], ◌≤◌, length, map, IsTrue, Some};
ghost use Rattle.rm_status.specs.Rows.{row_in};
ghost use Rattle.rm_dir.specs.BuiltInRows.{row_of};
ghost use Rattle.rm_dir.specs.FirstRows.{columns_of, first_in, are_sound};
ghost use Rattle.rm_dir.specs.DirectoryRows.{support_at_first};

use crate::built_in::{BuiltIn, built_in_local, is_countable};
use crate::row::DirectoryRow;
use crate::support::Support;
use arrayvec::ArrayVec;
use rm_model::State;
use rm_path::ProtocolIdentifier;
use rm_status::Controls;

/// Puts rows in that the directory has from the beginning.
pub(crate) fn insert_all(rows: &mut Controls<DirectoryRow>, built_in: &[BuiltIn])
    requires none { rows.old ≡ [] }
    requires sound { IsTrue (are_sound (map row_of built_in.now)) }
    requires room { length built_in.now ≤ 32 }
    ensures rows { (i : ℕ) → row_in rows.new i ≡ first_in (map row_of built_in.now) i }
    ensures count { length rows.new ≡ length built_in.now }
{
    if let Some((first, rest)) = built_in.split_first() {
        insert_all(rows, rest);
        rows.insert(first.protocol.number(), State::Valid, columns_of(first));
    }
}

// What is kept of such a row.
fn columns_of(row: &BuiltIn) -> DirectoryRow
    requires { length row.now.descr.now ≤ 64 }
    ensures { result ≡ columns_of (row_of row.now) }
{
    let support = support_of(row.protocol);
    let mut descr = ArrayVec::new();
    descr.try_extend_from_slice(row.descr).unwrap();
    let mut owner = ArrayVec::new();
    owner.try_extend_from_slice(b"monitor").unwrap();
    DirectoryRow {
        descr,
        host: support,
        matrix: support,
        owner,
        local: built_in_local(row.protocol),
        host_before: support,
        matrix_before: support,
    }
}

// Whether tables count a protocol at first.
fn support_of(protocol: ProtocolIdentifier) -> Support
    ensures { result ≡ support_at_first (Some protocol) }
{
    if is_countable(protocol) {
        Support::SupportedOn
    } else {
        Support::NotSupported
    }
}
