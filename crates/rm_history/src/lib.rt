//! The history of Ethernet interfaces: historyControlTable and etherHistoryTable (RFC 1757, section 5).
#![tactic(auto)]

mod collected;
mod control_columns;
mod counted_frame;
mod plan;
mod run;
mod samples;
mod shown_buckets;

use rm_collect::Collecting;
use run::Run;

/// The history of Ethernet interfaces: historyControlTable and etherHistoryTable (RFC 1757, section 5). A valid row of historyControl
/// has the storage of its buckets; other storage may be spare.
pub type History = Collecting<Run>;
