//! The rows of control tables, over any table that describes its columns as data: how a Set is judged on them, what it makes of
//! them, what they show, and which they are after a journal.
#![tactic(auto)]

mod change;
mod controls;
mod given;
mod indexes;
mod laws;
mod number;
mod other_columns;
mod place;
mod row;
mod steps;

pub use change::Change;
pub use controls::{Controls, MAX_ROWS};
pub use laws::rows_are_counted;
pub use number::row_number;
pub use other_columns::OtherColumns;
pub use place::place_under;
pub use row::{Row, status_number};
