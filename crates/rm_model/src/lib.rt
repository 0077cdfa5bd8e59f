//! What happened to the probe: the journal, from which every value that the probe answers is defined.
//!
//! The crate has definitions, in `specs/`, lemmas about them that the groups cite, in `proofs/`, and the plain types that
//! code and definitions share. `Journal` has the acts,
//! `Names` and `Cells` what GetNext finds and the cells of a table, `Finite` that these are finitely many,
//! `ControlTable` and `ControlRows` the rows of control tables after a journal, `Judgement` what is wrong with a Set,
//! `Accepted` what one that is accepted gives, `Alike` when rows are alike to a Set, `Interfaces` the frames that a data
//! source names, `Counting` what the probe was set to. No code keeps a journal.
#![tactic(auto)]

mod instance;
mod interface;
mod place;
mod reading;
mod row;
mod sheet;
mod verdict;

pub use instance::Instance;
pub use interface::INTERFACES;
pub use place::Place;
pub use reading::Reading;
pub use row::{Ask, State, StatusKind};
pub use sheet::{ColumnKind, ColumnSheet, Settable, Setting, Span};
pub use verdict::Verdict;
