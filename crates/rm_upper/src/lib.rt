//! The network and application layer rows of one control row (RFC 2021, section 6): those of addresses, or of pairs of addresses, and
//! within each those of the protocols above ip.
#![tactic(auto)]

mod applications;
mod counts;
mod kept_rows;
mod layer_table;
mod network_row;
mod network_rows;
mod order;
mod slots;
mod walk;

pub use counts::{Counted, Counts, LayerCounts};
pub use layer_table::LayerTable;
pub use network_row::NetworkRow;
pub use network_rows::NetworkRows;
pub use order::{RowOrder, application_after, network_after};
pub use slots::{KeptApplication, Slot};
