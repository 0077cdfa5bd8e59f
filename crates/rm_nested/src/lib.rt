//! The walk over tables whose rows belong to the rows of a control table: these in order, and the inner rows of each in order.
#![tactic(auto)]

mod inner_cells;
mod inner_rows;
mod inner_table;
mod nested;
mod number;
mod numbered_cells;
mod numbered_rows;

pub use inner_cells::{
    InnerCells, cell_of_both, inner_cell, judge_both, next_inner_cell, next_of_both,
};
pub use inner_rows::InnerRows;
pub use inner_table::InnerTable;
pub use nested::Nested;
pub use number::{first_number, one_number_above, two_numbers};
pub use numbered_cells::NumberedCells;
pub use numbered_rows::{NumberedPart, NumberedRows};
