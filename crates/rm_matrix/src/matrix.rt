// What the rows of matrixControl collect.
use crate::matrix_rows::MatrixRows;
use rm_collect::Collecting;
use rm_keyed::AddressPair;
use rm_sourced::Sourced;

/// The pairs of hosts between which frames go: matrixControlTable, matrixSDTable and matrixDSTable (RFC 1757, section 5). A valid row of
/// matrixControl has the storage of its pairs; other storage may be spare.
pub type Matrix = Collecting<MatrixTable>;

/// The pairs of hosts that a row of matrixControl holds, and the interface whose frames it takes.
pub type MatrixTable = Sourced<AddressPair, MatrixRows>;
