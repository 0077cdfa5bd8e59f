//! The group event: eventTable and logTable (RFC 1757, section 5).
#![tactic(auto)]

mod acts;
mod assigning;
mod entries;
mod event_cell;
mod event_row;
mod event_type;
mod events;
mod fired;
mod firing;
mod group;
mod log;

pub use event_type::EventType;
pub use events::Events;
pub use fired::Fired;
