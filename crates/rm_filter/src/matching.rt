// The packets that a filter matches.
ghost use Rattle.std.specs.Prelude.{◌≡◌, ℕ, List, true, Some};
ghost use Rattle.rm_model.specs.Counting.{Counting};
ghost use Rattle.rm_model.specs.Journal.{Frame, Journal};
ghost use Rattle.rm_model.specs.ControlRows.{no_rows, is_valid};
ghost use Rattle.rm_status.specs.declared.row.Row.{Row};
ghost use Rattle.rm_status.specs.Rows.{columns_in, state_in};
ghost use Rattle.rm_status.specs.RowsAfter.{AreRowsAfter};
ghost use Rattle.rm_group.specs.Passing.{IsOf};
ghost use Rattle.rm_acts.specs.Filters.{filter_table, matches};
ghost use Rattle.rm_filter.specs.declared.filter_row.FilterRow.{FilterRow as Filter};
ghost use Rattle.rm_filter.specs.FilterRows.{set_to};
ghost use Rattle.rm_filter.specs.Matching.{row_matches};

use crate::filter_row::FilterRow;
use rm_proto::Facts;

/// Whether a filter matches a packet, by what is known of it and by its captured octets: whether its octets and its status pass
/// (RFC 1757, section 5).
pub fn matches(filter: &FilterRow, facts: &Facts, octets: &[u8]) -> bool
    ensures tests { result ≡ row_matches filter.now facts.now.status octets.now }
    ensures matches { (settings : Counting) (journal : Journal) (frame : Frame) (number moment : ℕ) (rows : List (Row Filter)) (index : ℕ)
        → AreRowsAfter filter_table no_rows set_to rows journal → is_valid (state_in rows index) ≡ true → columns_in rows index ≡ Some filter.now
        → IsOf settings frame facts.now octets.now number moment
        → result ≡ matches settings journal index frame }
{
    filter.packet_test().passes(octets) && filter.status_test().passes(facts.status)
}
