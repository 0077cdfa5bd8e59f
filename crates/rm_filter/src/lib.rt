//! The group filter: filterTable and channelTable (RFC 1757, section 5). It tells which packets filters match and channels accept,
//! and keeps what frames, firings and Sets make of each channel.
#![tactic(auto)]

mod accept_type;
mod accepted;
mod accepting;
mod acts;
mod changes;
mod channel;
mod channel_row;
mod channel_table;
mod data_control;
mod event_status;
mod filter_row;
mod filter_table;
mod filters;
mod group;
mod judging;
mod matching;
mod turning;

pub use accept_type::AcceptType;
pub use accepted::Accepted;
pub use accepting::{accepts, is_matched};
pub use channel_row::ChannelRow;
pub use data_control::DataControl;
pub use event_status::EventStatus;
pub use filter_row::FilterRow;
pub use filters::Filters;
pub use matching::matches;
