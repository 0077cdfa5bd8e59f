//! The pairs of hosts of the network and application layer (RFC 2021, section 6): hlMatrixControlTable, nlMatrixSDTable,
//! nlMatrixDSTable, alMatrixSDTable and alMatrixDSTable.
#![tactic(auto)]

mod control;
mod counted_frame;
mod pairs;
mod part;
mod views;

pub use control::{MatrixColumns, MatrixControl};
pub use part::PairPart;
