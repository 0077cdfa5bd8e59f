// Which channels accept a frame.
ghost use Rattle.std.specs.Prelude.{◌≡◌, ◌<◌, ℕ, List, length, filter_map, Some};
ghost use Rattle.rm_model.specs.Counting.{Counting};
ghost use Rattle.rm_model.specs.Journal.{Frame, Journal};
ghost use Rattle.rm_model.specs.ControlRows.{no_rows};
ghost use Rattle.rm_status.specs.declared.row.Row.{Row as HeldRow};
ghost use Rattle.rm_status.specs.Rows.{row_in};
ghost use Rattle.rm_status.specs.RowsAfter.{AreRowsAfter};
ghost use Rattle.rm_group.specs.Passing.{IsOf};
ghost use Rattle.rm_acts.specs.Filters.{filter_table};
ghost use Rattle.rm_acts.specs.Channels.{channel_table};
ghost use Rattle.rm_filter.specs.declared.channel.Channel.{Channel as Kept};
ghost use Rattle.rm_filter.specs.FilterRows.{set_to as filter_set_to};
ghost use Rattle.rm_filter.specs.ChannelForm.{set_to};
ghost use Rattle.rm_filter.specs.Judging.{judged, with_one};

use crate::accepted::Accepted;
use crate::accepting::accepts;
use crate::channel::Channel;
use crate::filter_row::FilterRow;
use arrayvec::ArrayVec;
use rm_model::State;
use rm_proto::Facts;
use rm_status::{Controls, MAX_ROWS, Row};

/// The channels that accept a frame, in the order of their indexes.
pub(crate) type Accepting = ArrayVec<Accepted, MAX_ROWS>;

/// Lists the valid channels that accept a packet, in the order of their indexes.
pub(crate) fn judge(
    accepting: &mut Accepting,
    filters: &Controls<FilterRow>,
    channels: &Controls<Channel>,
    facts: &Facts,
    octets: &[u8],
)
    ensures { (settings : Counting) (journal : Journal) (frame : Frame) (number moment : ℕ)
        → AreRowsAfter filter_table no_rows filter_set_to filters.now journal
        → AreRowsAfter channel_table no_rows set_to channels.now journal
        → IsOf settings frame facts.now octets.now number moment
        → accepting.new.items ≡ filter_map (judged settings journal frame) channels.now }
{
    prove!(channels.len() <= MAX_ROWS);
    accepting.clear();
    let mut last = 0;
    while let Some(index) = channels.after(last) {
        add(accepting, judge_at(filters, channels, index, facts, octets));
        last = index;
    }
}

// Adds one to some channels, if it accepts the packet.
fn add(accepting: &mut Accepting, one: Option<Accepted>)
    requires room { length accepting.old.items < 32 }
    ensures { accepting.new.items ≡ with_one accepting.old.items one }
{
    if let Some(accepted) = one {
        accepting.push(accepted);
    }
}

// The channel with an index, if it is valid and accepts a packet.
fn judge_at(
    filters: &Controls<FilterRow>,
    channels: &Controls<Channel>,
    index: u32,
    facts: &Facts,
    octets: &[u8],
) -> Option<Accepted>
    ensures { (settings : Counting) (journal : Journal) (frame : Frame) (number moment : ℕ) (row : HeldRow Kept)
        → AreRowsAfter filter_table no_rows filter_set_to filters.now journal
        → AreRowsAfter channel_table no_rows set_to channels.now journal
        → row_in channels.now index ≡ Some row
        → IsOf settings frame facts.now octets.now number moment
        → result ≡ judged settings journal frame row }
{
    let row = channels.row(index)?;
    judge_row(filters, row, facts, octets)
}

// A channel, if it is valid and accepts a packet.
fn judge_row(
    filters: &Controls<FilterRow>,
    row: &Row<Channel>,
    facts: &Facts,
    octets: &[u8],
) -> Option<Accepted>
    ensures { (settings : Counting) (journal : Journal) (frame : Frame) (number moment : ℕ) (channels : List (HeldRow Kept))
        → AreRowsAfter filter_table no_rows filter_set_to filters.now journal
        → AreRowsAfter channel_table no_rows set_to channels journal
        → row_in channels row.now.index ≡ Some row.now
        → IsOf settings frame facts.now octets.now number moment
        → result ≡ judged settings journal frame row.now }
{
    match row.state {
        State::Valid => {}
        _ => return None,
    }
    if accepts(filters, row.index, &row.columns.set, facts, octets) {
        Some(Accepted::of(row))
    } else {
        None
    }
}
