// The packets that a channel accepts.
ghost use Rattle.std.specs.Prelude.{◌≡◌, ℕ, List, true, false, Some};
ghost use Rattle.rm_model.specs.Counting.{Counting};
ghost use Rattle.rm_model.specs.Journal.{Frame, Journal};
ghost use Rattle.rm_model.specs.ControlRows.{no_rows, is_valid};
ghost use Rattle.rm_status.specs.declared.row.Row.{Row as HeldRow};
ghost use Rattle.rm_status.specs.Rows.{columns_in, state_in};
ghost use Rattle.rm_status.specs.RowsAfter.{AreRowsAfter};
ghost use Rattle.rm_group.specs.Passing.{IsOf};
ghost use Rattle.rm_acts.specs.Filters.{filter_table};
ghost use Rattle.rm_acts.specs.Channels.{channel_table, is_matched, accepts};
ghost use Rattle.rm_filter.specs.declared.channel_row.ChannelRow.{ChannelRow as Channel};
ghost use Rattle.rm_filter.specs.FilterRows.{set_to as filter_set_to};
ghost use Rattle.rm_filter.specs.ChannelRows.{set_to as channel_set_to};
ghost use Rattle.rm_filter.specs.Matching.{matches_at, matches_for};

use crate::accept_type::AcceptType;
use crate::channel_row::ChannelRow;
use crate::filter_row::FilterRow;
use crate::matching::matches;
use rm_model::State;
use rm_proto::Facts;
use rm_status::{Controls, Row};

/// Whether a channel with an index accepts a packet: one of its interface that a valid filter of the channel matches, or that
/// none does, by its type (RFC 1757, channelAcceptType).
pub fn accepts(
    filters: &Controls<FilterRow>,
    index: u32,
    channel: &ChannelRow,
    facts: &Facts,
    octets: &[u8],
) -> bool
    ensures { (settings : Counting) (journal : Journal) (frame : Frame) (number moment : ℕ) (channels : List (HeldRow Channel))
        → AreRowsAfter filter_table no_rows filter_set_to filters.now journal
        → AreRowsAfter channel_table no_rows channel_set_to channels journal
        → is_valid (state_in channels index) ≡ true → columns_in channels index ≡ Some channel.now
        → IsOf settings frame facts.now octets.now number moment
        → result ≡ accepts settings journal index frame }
{
    if facts.interface != u32::from(channel.interface) {
        return false;
    }
    let matched = is_matched(filters, index, facts, octets);
    match channel.accept_type {
        AcceptType::Matched => matched,
        AcceptType::Failed => !matched,
    }
}

/// Whether a valid filter of a channel matches a packet.
pub fn is_matched(filters: &Controls<FilterRow>, channel: u32, facts: &Facts, octets: &[u8]) -> bool
    ensures { (settings : Counting) (journal : Journal) (frame : Frame) (number moment : ℕ)
        → AreRowsAfter filter_table no_rows filter_set_to filters.now journal
        → IsOf settings frame facts.now octets.now number moment
        → result ≡ is_matched settings journal channel frame }
{
    finds_match(filters, channel, facts, octets)
}

// Whether one of the filters that are held is valid, is of a channel and matches a packet.
fn finds_match(filters: &Controls<FilterRow>, channel: u32, facts: &Facts, octets: &[u8]) -> bool
    ensures some { result ≡ true → (index : ℕ) × (matches_at filters.now channel facts.now.status octets.now index ≡ true) }
    ensures none { result ≡ false → (index : ℕ) → matches_at filters.now channel facts.now.status octets.now index ≡ false }
{
    prove!(filters.len() <= 32);
    let mut last = 0;
    while let Some(index) = filters.after(last) {
        if matches_at(filters, index, channel, facts, octets) {
            return true;
        }
        last = index;
    }
    false
}

// Whether the filter with an index is valid, is of a channel and matches a packet.
fn matches_at(
    filters: &Controls<FilterRow>,
    index: u32,
    channel: u32,
    facts: &Facts,
    octets: &[u8],
) -> bool
    ensures { result ≡ matches_at filters.now channel facts.now.status octets.now index }
{
    match filters.row(index) {
        Some(row) => matches_for(row, channel, facts, octets),
        None => false,
    }
}

// Whether a filter is valid, is of a channel and matches a packet.
fn matches_for(row: &Row<FilterRow>, channel: u32, facts: &Facts, octets: &[u8]) -> bool
    ensures { result ≡ matches_for row.now channel facts.now.status octets.now }
{
    match row.state {
        State::Valid => row.columns.channel() == channel && matches(&row.columns, facts, octets),
        _ => false,
    }
}
