// What firings make of a channel.
ghost use Rattle.std.specs.Prelude.{◌≡◌, ℕ, List, true, Some, ◌||◌, nat_eq};
ghost use Rattle.rm_model.specs.Journal.{Journal};
ghost use Rattle.rm_model.specs.ControlRows.{no_rows, is_valid};
ghost use Rattle.rm_status.specs.declared.row.Row.{Row};
ghost use Rattle.rm_status.specs.Rows.{columns_in, state_in};
ghost use Rattle.rm_status.specs.RowsAfter.{AreRowsAfter};
ghost use Rattle.rm_acts.specs.declared.firing.Firing.{Firing};
ghost use Rattle.rm_acts.specs.Channels.{channel_table};
ghost use Rattle.rm_acts.specs.Fired.{switched, spent, is_by};
ghost use Rattle.rm_filter.specs.declared.channel_row.ChannelRow.{ChannelRow as Channel};
ghost use Rattle.rm_filter.specs.Changes.{turned, status_after};
ghost use Rattle.rm_filter.specs.ChannelRows.{set_to};
ghost use Rattle.rm_filter.specs.DataControl.{control_number};
ghost use Rattle.rm_filter.specs.EventStatus.{status_number};

use crate::channel_row::ChannelRow;
use crate::data_control::DataControl;
use crate::event_status::EventStatus;

impl ChannelRow {
    /// What becomes of channelDataControl where an event fires while the channel is valid: off becomes on by its turn-on event,
    /// and on becomes off by its turn-off event (RFC 1757, section 5).
    pub fn switched(&self, present: DataControl, event: u32) -> DataControl
        ensures value { result ≡ turned self.now present event }
        ensures turned { (journal : Journal) (rows : List (Row Channel)) (index : ℕ) (firing : Firing)
            → AreRowsAfter channel_table no_rows set_to rows journal
            → is_valid (state_in rows index) ≡ true → columns_in rows index ≡ Some self.now → firing.event ≡ event
            → control_number result ≡ switched journal index firing (control_number present) }
    {
        match present {
            DataControl::Off if event == u32::from(self.turn_on_event) => DataControl::On,
            DataControl::On if event == u32::from(self.turn_off_event) => DataControl::Off,
            unchanged => unchanged,
        }
    }
}

impl EventStatus {
    /// What becomes of channelEventStatus where an event fires, by this channel or not (RFC 1757, section 5).
    pub fn spent(self, by_this: bool) -> EventStatus
        ensures value { result ≡ status_after self by_this }
        ensures spent { (journal : Journal) (channel : ℕ) (firing : Firing) → is_by channel firing ≡ by_this
            → status_number result ≡ spent journal channel firing (status_number self) }
    {
        match self {
            EventStatus::Ready if by_this => EventStatus::Fired,
            unchanged => unchanged,
        }
    }

    /// Whether a channel that accepts a packet fires its event, if that is valid.
    pub fn is_ready(self) -> bool
        ensures { result ≡ (nat_eq (status_number self) 1 || nat_eq (status_number self) 3) }
    {
        match self {
            EventStatus::Ready | EventStatus::AlwaysReady => true,
            EventStatus::Fired => false,
        }
    }
}
