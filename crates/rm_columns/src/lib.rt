//! The columns of control tables, over any table that describes them as data: which values a column takes, what it is then set to,
//! and what it shows.
#![tactic(auto)]

mod control_row;
mod control_sheet;
mod interface;
mod numbered;
mod row_keys;
mod sheet;
mod values;

pub use control_row::ControlRow;
pub use control_sheet::ControlSheet;
pub use interface::{interface_name, source};
pub use numbered::Numbered;
pub use rm_model::INTERFACES;
pub use row_keys::{OneNumber, RowKeys};
pub use sheet::{check, is_ready, may_always, shown};
pub use values::{
    MOST_OWNER, counter_32, interface_in, name_in, natural, natural_in, number_in, put_text,
    same_text, short_in,
};
