// The directory of protocols, and the tables that count by it.
ghost use Rattle.std.specs.Prelude.{◌≡◌, ◌≤◌, [], ◌∷◌, ℕ, ℤ, Option, OnOk};
ghost use Rattle.rm_model.specs.Counting.{Counting};
ghost use Rattle.rm_model.specs.Journal.{Journal, last_moment, samples};
ghost use Rattle.rm_protocols.specs.Group.{Stands, IsStocked, frames_given, last_given};

use rm_collect::Collecting;
use rm_dir::Directory;
use rm_dist::Distribution;
use rm_group::sample_begins;
use rm_hl_hosts::HostPart;
use rm_hl_matrices::PairPart;
use rm_layer_slots::TableKind;
use rm_layer_tables::LayerShared;
use rm_settings::Settings;
use rm_val::NoMemory;
use std::alloc::Global;

/// The directory of the protocols that the probe knows, and what counts by it (RFC 2021, section 6): protocolDirTable with
/// protocolDirLastChange; protocolDistControlTable with protocolDistStatsTable; hlHostControlTable with nlHostTable and alHostTable;
/// hlMatrixControlTable with nlMatrixSDTable, nlMatrixDSTable, alMatrixSDTable and alMatrixDSTable. A frame counts by the protocols that are
/// active in the directory when it passes: for hosts by those of them that are on for hosts, and for pairs of hosts by those that are on for
/// these.
#[derive(Drop)]
pub struct ProtocolTables {
    pub(crate) directory: Directory,
    pub(crate) distribution: Distribution,
    // The hosts of the network and application layer.
    pub(crate) hosts: Collecting<HostPart>,
    // The pairs of these hosts.
    pub(crate) pairs: Collecting<PairPart>,
}

impl ProtocolTables {
    /// The tables of a probe that is set so, before the first frame: the built-in rows of the directory, and no row of the others. They have
    /// no storage.
    pub fn new(settings: &Settings) -> ProtocolTables
        ensures stands { (counting : Counting) → counting.upper ≡ settings.now.upper → Stands result counting [] }
        ensures frames { frames_given result ≡ 0 }
        ensures last { last_given result ≡ 0 }
    {
        let directory = Directory::new();
        let host_shared = LayerShared::by(TableKind::Hosts, &directory, settings.upper);
        let pair_shared = LayerShared::by(TableKind::Matrices, &directory, settings.upper);
        let hosts = Collecting::new(host_shared);
        let pairs = Collecting::new(pair_shared);
        ProtocolTables {
            directory,
            distribution: Distribution::new(),
            hosts,
            pairs,
        }
    }

    /// Takes the storage of one row of hlHostControl, and then that of one row of hlMatrixControl, which are needed before the first Set. No
    /// variable changes. NoMemory where there is none for one of them; what was taken before that stays.
    pub fn reserve(&mut self, alloc: Global) -> Result<(), NoMemory>
        ensures stands { (settings : Counting) (journal : Journal) → Stands self.old settings journal → Stands self.new settings journal }
        ensures stocked { OnOk result (IsStocked self.new) }
        ensures frames { frames_given self.new ≡ frames_given self.old }
        ensures last { last_given self.new ≡ last_given self.old }
    {
        self.hosts.reserve(alloc)?;
        self.pairs.reserve(alloc)
    }

    /// A law: the sample of an alarm at a moment in milliseconds, which isn't below that of the last act, makes no difference to the tables. It
    /// does nothing.
    pub fn sample_begins(&self, moment: u32)
        ensures { (settings : Counting) (earlier : Journal) (alarm : ℕ) (reading : Option ℤ) → Stands self.now settings earlier
            → last_moment earlier ≤ moment → Stands self.now settings (samples moment alarm reading ∷ earlier) }
    {
        sample_begins(&self.directory, moment);
        self.distribution.sample_begins(moment);
        self.hosts.sample_begins(moment);
        self.pairs.sample_begins(moment);
    }
}
