//! What hlHostControlTable and hlMatrixControlTable have in common, with the tables of the network and application layer that their rows
//! collect (RFC 2021, section 6).
#![tactic(auto)]

mod address;
mod address_pair;
mod beginning;
mod by_application;
mod by_network;
mod counted_frame;
mod held_rows;
mod held_table;
mod layer_columns;
mod layer_key;
mod layer_rows;
mod layer_view;
mod locals;
mod on;
mod places;
mod reversed_rows;
mod shared;
mod sharing;
mod shown;
mod turning;
mod two_orders;

pub use by_application::ByApplication;
pub use by_network::ByNetwork;
pub use counted_frame::CountedFrame;
pub use held_table::HeldTable;
pub use layer_columns::{LAYER_NUMBERS, LayerColumns};
pub use layer_key::LayerKey;
pub use layer_rows::LayerRows;
pub use layer_view::{LayerView, MarkedObjects};
pub use locals::locals_above_ip;
pub use shared::LayerShared;
pub use shown::control_counter;
pub use two_orders::TwoOrders;
