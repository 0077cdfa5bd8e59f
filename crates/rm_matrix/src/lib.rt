//! The pairs of hosts between which frames go: matrixControlTable, matrixSDTable and matrixDSTable (RFC 1757, section 5).
#![tactic(auto)]

mod by_destination;
mod by_source;
mod matrix;
mod matrix_room;
mod matrix_rows;
mod pair_counts;
mod shown;

pub use matrix::{Matrix, MatrixTable};
pub use matrix_room::MatrixRoom;
pub use matrix_rows::MatrixRows;
pub use pair_counts::PairCounts;
