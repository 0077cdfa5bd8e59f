//! The rows that frames enter into one table of a control row, by a key of theirs: what each has gained, and when the last one gave way.
#![tactic(auto)]

mod above;
mod address_pair;
mod counts;
mod held;
mod indexed;
mod key_order;
mod keyed;
mod part_rows;
mod source_cell;
mod source_columns;
mod two_tables;
mod walk;

pub use address_pair::AddressPair;
pub use counts::Counts;
pub use indexed::{Indexed, compare_index, index_of};
pub use key_order::KeyOrder;
pub use keyed::{Keyed, MOST_ROWS};
pub use part_rows::{KeyTable, PartRows};
pub use source_cell::source_value;
pub use source_columns::{SOURCE_NUMBERS, SourceColumns, SourceTable};
pub use two_tables::{cell_of_two, judge_two, next_of_two};
pub use walk::{key_above, key_at, key_ranked, rank_above};
