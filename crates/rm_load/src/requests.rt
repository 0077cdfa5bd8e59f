// The requests by which a load makes rows (RFC 1905, section 4.2.5).
ghost use Rattle.std.specs.Prelude.{◌≡◌, ◌≤◌, length};
ghost use Rattle.rm_pdu.specs.Draft.{drafted};
ghost use Rattle.rm_load.specs.Sets.{first_set, second_set, set_request, with_statuses};

use crate::table::Table;
use rm_pdu::{Draft, Kind, bindings_add_up, bindings_are_bounded};
use rm_val::Value;

// An EntryStatus: the row is valid (RFC 1757).
const VALID: u8 = 1;

// An EntryStatus: the row is to be made.
const CREATE_REQUEST: u8 = 2;

// A RowStatus: the row is to be made and to be active (RFC 1903).
const CREATE_AND_GO: u8 = 4;

// What the first request gives to row 1 of tables.
const FIRST_STATUSES: [(Table, u8); 4] = [
    (Table::HostControl, CREATE_REQUEST),
    (Table::MatrixControl, CREATE_REQUEST),
    (Table::HlHostControl, CREATE_AND_GO),
    (Table::HlMatrixControl, CREATE_AND_GO),
];

// What the second one gives to them.
const SECOND_STATUSES: [(Table, u8); 2] = [
    (Table::HostControl, VALID),
    (Table::MatrixControl, VALID),
];

/// The SetRequest of a community, of at most 64 octets, that makes row 1 of four tables. Those of the network and application layer are then
/// active.
pub fn first_request(community: &[u8]) -> Draft
    requires { length community.now ≤ 64 }
    ensures { result ≡ drafted (set_request community.now 1 first_set) }
{
    request(community, 1, &FIRST_STATUSES)
}

/// The SetRequest of a community, of at most 64 octets, that makes the other two rows valid.
pub fn second_request(community: &[u8]) -> Draft
    requires { length community.now ≤ 64 }
    ensures { result ≡ drafted (set_request community.now 2 second_set) }
{
    request(community, 2, &SECOND_STATUSES)
}

// The SetRequest of a community, with a number, that gives a status to row 1 of each of at most four tables.
fn request(community: &[u8], id: u8, statuses: &[(Table, u8)]) -> Draft
    requires short { length community.now ≤ 64 }
    requires few { length statuses.now ≤ 4 }
    ensures { result ≡ drafted (set_request community.now id (with_statuses statuses.now)) }
{
    bindings_add_up();
    bindings_are_bounded();
    let mut draft = Draft::new(community, Kind::Set, i32::from(id), 0, 0);
    for &(table, status) in statuses {
        // There is room for each.
        let _ = draft.add(&table.status_name(), &Value::Int(i32::from(status)));
    }
    draft
}
