//! Control tables whose valid rows collect what frames bring, each in storage of its own.
#![tactic(auto)]

mod assigning;
mod collected;
mod collecting;
mod group;
mod row_columns;
mod sampled_tables;
mod shown;
mod table;
mod turned;

pub use collected::{ByFacts, Collected};
pub use collecting::Collecting;
pub use row_columns::RowColumns;
pub use sampled_tables::SampledTables;
pub use turned::{ByItself, ByOther, Turned, complete};
