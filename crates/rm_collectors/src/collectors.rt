// The control tables whose valid rows collect.
ghost use Rattle.std.specs.Prelude.{◌≡◌, ◌≤◌, max, [], OnOk};
ghost use Rattle.rm_model.specs.Counting.{Counting};
ghost use Rattle.rm_model.specs.Journal.{Journal};
ghost use Rattle.rm_topn.specs.Due.{HasEnded};
ghost use Rattle.rm_collectors.specs.Group.{Stands, IsAskable, IsStocked, IsSetTo, FallsDue, frames_given, last_given, left_of};

use rm_history::History;
use rm_hosts::{HostRoom, Hosts};
use rm_matrix::{Matrix, MatrixRoom};
use rm_settings::Settings;
use rm_topn::Reports;
use rm_val::NoMemory;
use std::alloc::Global;

/// The control tables whose valid rows collect what frames bring, with what they have collected (RFC 1757, section 5): historyControlTable
/// with etherHistoryTable; matrixControlTable with matrixSDTable and matrixDSTable; hostControlTable with hostTable and hostTimeTable;
/// hostTopNControlTable with hostTopNTable. It may be asked at a moment where the reports that are due have ended.
#[derive(Drop)]
pub struct Collectors {
    pub(crate) history: History,
    // The pairs of hosts.
    pub(crate) matrix: Matrix,
    pub(crate) hosts: Hosts,
    // The reports of the hosts that gained most, beside the hosts.
    pub(crate) reports: Reports,
}

impl Collectors {
    /// The tables of a probe that is set so, before the first frame. They have no row, and no storage.
    pub fn new(settings: &Settings) -> Collectors
        ensures stands { (counting : Counting) → IsSetTo settings.now counting → Stands result counting [] }
        ensures last { last_given result ≡ 0 }
        ensures frames { frames_given result ≡ 0 }
    {
        let history = History::new(());
        let matrix = Matrix::new(MatrixRoom {
            pairs: settings.pairs,
        });
        let hosts = Hosts::new(HostRoom {
            hosts: settings.hosts,
        });
        Collectors {
            history,
            matrix,
            hosts,
            reports: Reports::new(),
        }
    }

    /// Takes the storage of one row of each table, which is needed before the first Set. No variable changes. NoMemory where there is
    /// none.
    pub fn reserve(&mut self, alloc: Global) -> Result<(), NoMemory>
        ensures stands { (settings : Counting) (journal : Journal) → Stands self.old settings journal → Stands self.new settings journal }
        ensures stocked { OnOk result (IsStocked self.new) }
        ensures last { last_given self.new ≡ last_given self.old }
        ensures frames { frames_given self.new ≡ frames_given self.old }
    {
        self.history.reserve(alloc)?;
        self.matrix.reserve(alloc)?;
        self.hosts.reserve(alloc)?;
        self.reports.reserve(alloc)
    }

    /// Ends the reports that are due up to a moment, in milliseconds. The tables may then be asked at that moment. It takes no memory.
    pub fn end_by(&mut self, moment: u32)
        ensures stands { (settings : Counting) (journal : Journal) → Stands self.old settings journal → Stands self.new settings journal }
        ensures askable { IsAskable self.new moment }
        ensures ended { HasEnded moment (FallsDue self.old) (FallsDue self.new) (left_of self.old) (left_of self.new) }
        ensures stocked { IsStocked self.old → IsStocked self.new }
        ensures last { last_given self.new ≤ max (last_given self.old) moment }
        ensures frames { frames_given self.new ≡ frames_given self.old }
    {
        self.reports.end_by(&self.hosts, moment);
    }
}
