//! Captures in the classic pcap format, read record by record through a shelf.
#![tactic(auto)]

mod capture;
mod fault;
mod fields;
mod form;
mod frame;
mod header;
mod laws;
mod position;
mod reach;
mod record;
mod start;

pub use capture::Capture;
pub use fault::PcapFault;
pub use form::{Form, Order, TimeUnit};
pub use frame::{Frame, Step};
pub use laws::{every_reading, one_list_of_records, one_reading, readings_are_records};
pub use reach::Reach;
pub use start::Start;
