//! What a group of objects does for Get, GetNext and Set, over any table: pairs of groups, the search for the next cell of a table,
//! what alarms may sample of a group, and the system group. How groups take a frame or a sample step by step, and what falls due.
#![tactic(auto)]

mod acts;
mod assignments;
mod assigns;
mod beside;
mod both;
mod bounds;
mod cell;
mod commits;
mod denied;
mod due;
mod group;
mod instance;
mod laws;
mod least;
mod look;
mod lower;
mod nearer;
mod objects;
mod one_row;
mod passing;
mod read_only;
mod readable;
mod row_indexes;
mod search;
mod stores;
mod system;
mod wrong;

pub use acts::{Steps, Unfired, Unsampled, sample_begins};
pub use assignments::Assignments;
pub use assigns::Assigns;
pub use beside::Beside;
pub use both::Both;
pub use bounds::{MOST_FRAMES, MOST_OCTETS};
pub use cell::cell_in;
pub use commits::Commits;
pub use denied::Denied;
pub use due::{Due, FallsDue, NeverDue, SAMPLES, sooner};
pub use group::Group;
pub use instance::{append_from, instance_of, numbers_from};
pub use laws::{next_or_none, order_does_not_matter};
pub use least::{is_under, lesser};
pub use look::Look;
pub use lower::lower_verdict;
pub use nearer::{choose_nearer, nearer_in};
pub use objects::{Objects, TableObjects, Tables, is_listed, is_of_column};
pub use one_row::OneRow;
pub use passing::Passing;
pub use read_only::judge_read_only;
pub use readable::{Readable, Sight, reading_of};
pub use row_indexes::RowIndexes;
pub use search::next_name;
pub use stores::{Storeless, Stores};
pub use system::System;
pub use wrong::wrong_at;
