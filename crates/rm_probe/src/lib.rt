//! A probe, to which frames and datagrams come one by one, and the runs that replay up to four captures: one answers the datagrams of a
//! request file, the other those that come over a link.
#![tactic(auto)]

mod entry;
mod judging;
mod laws;
mod line;
mod names;
mod notes;
mod output;
mod post;
mod probe;
mod replaying;
mod requests;
mod serving;
mod status;

pub use entry::replay;
pub use laws::{one_served, one_text};
pub use notes::Notes;
pub use output::{Output, OutputFault};
pub use post::{Addressee, Post, Posted, Unsent};
pub use probe::Probe;
pub use serving::serve;
pub use status::Status;
